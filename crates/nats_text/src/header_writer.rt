ghost use Rattle.std.specs.Prelude.{◌≡◌, ◌-◌, ◌^◌, ◌++◌, length, min, OnOk, OnErr};
ghost use Rattle.std.specs.List.{flat_map};
ghost use Rattle.std.specs.Option.{option_copied};
ghost use Rattle.nats_text.specs.Headers.{Extends, first_text, crlf, pair_line, lines_of};

use crate::{NoMemory, Pair};

const VERSION_LEN: usize = 8;

// Adds the lines of a block. Without memory some of its bytes may have been added.
pub(crate) fn append_lines(
    buf: &mut Vec<u8>,
    status: Option<&[u8]>,
    pairs: &[Pair],
) -> Result<(), NoMemory>
    ensures ok { OnOk result (buf.new.items ≡ buf.old.items ++ lines_of (option_copied status.entry) pairs.now) }
    ensures err { OnErr result (Extends buf.old.items buf.new.items) }
{
    append_first_line(buf, status)?;
    append_pairs(buf, pairs)?;
    append(buf, b"\r\n")
}

fn append_first_line(buf: &mut Vec<u8>, status: Option<&[u8]>) -> Result<(), NoMemory>
    ensures ok { OnOk result (buf.new.items ≡ buf.old.items ++ first_text (option_copied status.entry) ++ crlf) }
    ensures err { OnErr result (Extends buf.old.items buf.new.items) }
{
    append(buf, b"NATS/1.0")?;
    if let Some(status) = status {
        append(buf, b" ")?;
        append(buf, status)?;
    }
    append(buf, b"\r\n")
}

fn append_pairs(buf: &mut Vec<u8>, pairs: &[Pair]) -> Result<(), NoMemory>
    ensures ok { OnOk result (buf.new.items ≡ buf.old.items ++ flat_map pair_line pairs.now) }
    ensures err { OnErr result (Extends buf.old.items buf.new.items) }
{
    for pair in pairs {
        append_pair(buf, pair)?;
    }
    Ok(())
}

fn append_pair(buf: &mut Vec<u8>, pair: &Pair) -> Result<(), NoMemory>
    ensures ok { OnOk result (buf.new.items ≡ buf.old.items ++ pair_line pair.now) }
    ensures err { OnErr result (Extends buf.old.items buf.new.items) }
{
    append(buf, pair.name.as_slice())?;
    append(buf, b": ")?;
    append(buf, pair.value.as_slice())?;
    append(buf, b"\r\n")
}

fn append(buf: &mut Vec<u8>, bytes: &[u8]) -> Result<(), NoMemory>
    ensures ok { OnOk result (buf.new.items ≡ buf.old.items ++ bytes.now) }
    ensures err { OnErr result (buf.new.items ≡ buf.old.items) }
{
    buf.extend_from_slice(bytes)?;
    Ok(())
}

// The length of the lines of a block, or the greatest `usize` where they are longer.
pub(crate) fn lines_len(status: Option<&[u8]>, pairs: &[Pair]) -> usize
    ensures { result ≡ min (length (lines_of (option_copied status.entry) pairs.now)) (2 ^ 64 - 1) }
{
    let mut total = first_line_len(status).saturating_add(2);
    for pair in pairs {
        total = total.saturating_add(pair_line_len(pair));
    }
    total
}

fn first_line_len(status: Option<&[u8]>) -> usize
    ensures { result ≡ min (length (first_text (option_copied status.entry) ++ crlf)) (2 ^ 64 - 1) }
{
    match status {
        Some(status) => status.len().saturating_add(VERSION_LEN + 3),
        None => VERSION_LEN + 2,
    }
}

fn pair_line_len(pair: &Pair) -> usize
    ensures { result ≡ min (length (pair_line pair.now)) (2 ^ 64 - 1) }
{
    pair.name
        .len()
        .saturating_add(pair.value.len())
        .saturating_add(4)
}
