ghost use Rattle.std.specs.Prelude.{◌≡◌};
ghost use Rattle.stream_fold.specs.Publishing.{capped, content_size};
ghost use Rattle.mirror_core.specs.Decisions.{is_back, is_large};
ghost use Rattle.mirror_core.specs.Entries.{IsLegalMessage};

use nats_text::{Message, laws};

/// The most bytes that the header block and the payload of a copied message may have together. The
/// record of such a message, with its subject and the header that a source sets, is below 2 MiB.
const MOST_CONTENT: u64 = 2_010_000;

/// Whether a delivery brings nothing: no stream has its number, or the copy, which has reached this
/// number, came past it.
pub fn is_back(reached: u64, seq: u64) -> bool
    ensures { result ≡ is_back reached seq }
{
    seq >= 1 << 63 || seq <= reached
}

/// How many bytes the written header block and the payload have together, or `2^64 - 1` where that is
/// more.
pub fn content_size(message: &Message) -> u64
    ensures { result ≡ capped (content_size message.now) }
{
    message
        .headers
        .written_len()
        .saturating_add(message.payload.len()) as u64
}

/// Whether a message has more content than a copy takes.
pub fn is_large(message: &Message) -> bool
    ensures { result ≡ is_large message.now }
{
    content_size(message) > MOST_CONTENT
}

/// Looks at what every message has: a legal subject, headers that are read as they are written, and a
/// time of 64 bits.
pub fn legal_message(message: &Message)
    ensures { IsLegalMessage message.now }
{
    let _subject = message.subject.bytes();
    let _pairs = message.headers.pairs();
    let _time = message.time;
    laws::header_blocks();
}
