//! What the parts of a destination give.
ghost use Rattle.std.specs.Prelude.{◌≡◌, ◌<◌, ◌++◌, ◌%◌, IsTrue, OnOk, decimal, map, fold};
ghost use Rattle.nats_text.specs.Hash.{fnv1a_next};
ghost use Rattle.nats_text.specs.Pieces.{pieces};
ghost use Rattle.nats_text.specs.Text.{tokens};
ghost use Rattle.subject_transform.specs.Parts.{number};
ghost use Rattle.subject_transform.specs.PartsOf.{part_of, is_sound};
ghost use Rattle.subject_transform.specs.Values.{taken, partition_of, value};

use crate::argument::number;
use crate::dots::push_dotted;
use crate::part::Part;
use crate::split::push_split;
use crate::taken::{first_piece, last_taken, taken};
use itoa::Buffer;
use nats_text::NoMemory;

/// The hash of no bytes, and the prime (Fowler, Noll and Vo).
const OFFSET_BASIS: u32 = 2_166_136_261;

const PRIME: u32 = 16_777_619;

/// Adds what a part gives, of a subject that a source matches.
pub(crate) fn push_value(
    buf: &mut Vec<u8>,
    source: &[u8],
    subject: &[u8],
    part: Part,
) -> Result<(), NoMemory>
    requires { IsTrue (is_sound part) }
    ensures { OnOk result (buf.new.items ≡ buf.old.items ++ value (tokens source.now) (tokens subject.now) (part_of part.entry)) }
{
    match part {
        Part::Literal(text) => push_text(buf, text),
        Part::Rest => push_text(buf, last_taken(source, subject)),
        Part::Token(index) => push_text(buf, taken(source, subject, index)),
        Part::Partition { count, indexes } => {
            push_number(buf, partition_of(count, indexes, source, subject))
        }
        Part::Split { index, separator } => {
            push_split(buf, separator, taken(source, subject, index))
        }
        Part::Dotted { dots, index, len } => {
            push_dotted(buf, dots, len, taken(source, subject, index))
        }
    }
}

fn push_text(buf: &mut Vec<u8>, text: &[u8]) -> Result<(), NoMemory>
    ensures { OnOk result (buf.new.items ≡ buf.old.items ++ text.now) }
{
    buf.extend_from_slice(text)?;
    Ok(())
}

fn push_number(buf: &mut Vec<u8>, number: u64) -> Result<(), NoMemory>
    ensures { OnOk result (buf.new.items ≡ buf.old.items ++ decimal number) }
{
    let mut digits = Buffer::new();
    push_text(buf, digits.format(number).as_bytes())
}

// The number of the partition, of so many, for the tokens of the indexes put together.
fn partition_of(count: u64, indexes: &[u8], source: &[u8], subject: &[u8]) -> u64
    requires { 0 < count }
    ensures { result ≡ partition_of count (map (taken (tokens source.now) (tokens subject.now)) (map number (pieces 44 indexes.now))) }
{
    let mut hash = OFFSET_BASIS;
    let mut rest = Some(indexes);
    while let Some(some) = rest {
        let (index, after) = first_piece(some, b',');
        hash = hash_on(hash, taken(source, subject, number(index)));
        rest = after;
    }
    u64::from(hash) % count
}

// The 32-bit FNV-1a hash of bytes behind those that gave this hash.
fn hash_on(hash: u32, bytes: &[u8]) -> u32
    ensures { result ≡ fold fnv1a_next hash bytes.now }
{
    bytes.iter().fold(hash, |so_far, byte| {
        (so_far ^ u32::from(*byte)).wrapping_mul(PRIME)
    })
}
