ghost use Rattle.std.specs.Prelude.{◌≡◌, ◌∷◌, IfOk};
ghost use Rattle.nats_text.specs.Pieces.{pieces, views};
ghost use Rattle.leafd_script.specs.Words.{Gives, is_one_of};
ghost use Rattle.leafd_script.specs.Lines.{GivesLine, IfLine, MirrorsAnother, CopiesNothing, HasRightConfig, line_of, is_silent, args_of, form_of, word_form, later_verbs};

use crate::configured::{mirror_line, stream_line, update_line};
use crate::plain::plain_form;
use crate::publishing::{headed_line, publish_line};
use crate::words::{BAD_LINE, NOT_YET, has_empty, is_one_of, is_word};
use crate::{Line, LineFault};
use nats_text::{NoMemory, cut, pieces};
use std::alloc::Global;

/// Reads a line, without its line feed. `None` comes exactly for an empty line and a comment, which
/// begins with `#`. `Bad` comes exactly where the line is none of the forms, with the first kind in
/// the order of [`ScriptKind`](crate::ScriptKind) from `NotYet` to `BadLine`, then that of the first
/// bad word from the left, then `BadOption` for a configuration that no stream may have.
pub fn read_line(alloc: Global, line: &[u8]) -> Result<Option<Line>, LineFault>
    ensures exact { Gives result (line_of line.now) }

    // A mirror copies all of a stream on another node, from its first message on.
    ensures mirror { IfLine result MirrorsAnother }
    ensures stream { IfLine result CopiesNothing }

    // The configuration of a stream or a mirror is one that `Config::check` accepts.
    ensures config { IfLine result HasRightConfig }
{
    if is_silent(line) {
        return Ok(None);
    }
    match form_of(alloc, line) {
        Ok(line) => Ok(Some(line)),
        Err(fault) => Err(fault),
    }
}

fn is_silent(line: &[u8]) -> bool
    ensures { result ≡ is_silent line.now }
{
    match line {
        [] => true,
        [first, ..] => *first == b'#',
    }
}

fn form_of(alloc: Global, line: &[u8]) -> Result<Line, LineFault>
    ensures { GivesLine result (form_of (pieces 32 line.now)) }
{
    match cut(line, b' ') {
        Some((verb, rest)) => form_with(alloc, verb, Some(rest)),
        None => form_with(alloc, line, None),
    }
}

fn form_with(alloc: Global, verb: &[u8], rest: Option<&[u8]>) -> Result<Line, LineFault>
    ensures { GivesLine result (form_of (verb.now ∷ args_of rest.entry)) }
{
    if is_word(verb, b"pub") {
        return publish_line(alloc, rest);
    }
    if is_word(verb, b"hpub") {
        return headed_line(alloc, rest);
    }
    let args = words_of(alloc, rest)?;
    word_form(alloc, verb, &args)
}

/// The words behind the first one.
fn words_of(alloc: Global, rest: Option<&[u8]>) -> Result<Vec<&[u8]>, NoMemory>
    ensures { IfOk result (λ words. views words.items ≡ args_of rest.entry) }
{
    match rest {
        Some(rest) => pieces(alloc, rest, b' '),
        None => Ok(Vec::new(alloc)),
    }
}

fn word_form(alloc: Global, verb: &[u8], args: &[&[u8]]) -> Result<Line, LineFault>
    ensures { GivesLine result (word_form verb.now (views args.now)) }
{
    if is_later_verb(verb) {
        Err(NOT_YET)
    } else if is_word(verb, b"stream") {
        stream_line(alloc, args)
    } else if is_word(verb, b"mirror") {
        mirror_line(alloc, args)
    } else if is_word(verb, b"update") {
        update_line(alloc, args)
    } else if has_empty(args) {
        Err(BAD_LINE)
    } else {
        plain_form(alloc, verb, args)
    }
}

/// Whether a line that begins so isn't built yet.
fn is_later_verb(verb: &[u8]) -> bool
    ensures { result ≡ is_one_of later_verbs verb.now }
{
    is_one_of(
        &[
            b"sources", b"remove", b"carry", b"lose", b"repeat", b"reverse", b"drop", b"cut",
            b"join", b"crash", b"crashat",
        ],
        verb,
    )
}
