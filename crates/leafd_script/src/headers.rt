ghost use Rattle.std.specs.Prelude.{◌≡◌};
ghost use Rattle.nats_text.specs.Pieces.{pieces, views};
ghost use Rattle.leafd_script.specs.Words.{Gives, headers_of, with_legal, with_text, with_texts};

use crate::LineFault;
use crate::words::BAD_LINE;
use nats_text::{Headers, cut, pieces};
use std::alloc::Global;

/// The headers of a word `NAME:VALUE;NAME:VALUE..`.
pub fn headers_of(alloc: Global, word: &[u8]) -> Result<Headers, LineFault>
    ensures { Gives result (headers_of word.now) }
{
    let texts = pieces(alloc, word, b';')?;
    with_texts(Headers::empty(alloc), &texts)
}

fn with_texts(headers: Headers, texts: &[&[u8]]) -> Result<Headers, LineFault>
    ensures { Gives result (with_texts headers (views texts.now)) }
{
    let mut headers = headers;
    let mut rest = texts;
    while let [text, others @ ..] = rest {
        headers = with_text(headers, text)?;
        rest = others;
    }
    Ok(headers)
}

fn with_text(headers: Headers, text: &[u8]) -> Result<Headers, LineFault>
    ensures { Gives result (with_text headers (pieces 58 text.now)) }
{
    match cut(text, b':') {
        Some((name, value)) => with_legal(headers, name, value),
        None => Err(BAD_LINE),
    }
}

fn with_legal(mut headers: Headers, name: &[u8], value: &[u8]) -> Result<Headers, LineFault>
    ensures { Gives result (with_legal headers name.now value.now) }
{
    if !Headers::legal(name, value) {
        return Err(BAD_LINE);
    }
    headers.add(name, value)?;
    Ok(headers)
}
