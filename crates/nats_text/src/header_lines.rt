ghost use Rattle.std.specs.Prelude.{◌≡◌, ◌↔◌, ◌<◌, ◌+◌, ◌^◌, ◌==◌, ◌++◌, ◌∷◌, [], ℕ, length, IfSome, IsTrue};
ghost use Rattle.std.specs.List.{list_all, position_from};
ghost use Rattle.std.specs.Option.{option_copied, option_map, option_and_then};
ghost use Rattle.std.specs.Result.{result_err};
ghost use Rattle.nats_text.specs.Headers.{is_header_name, is_header_byte, is_header_value, is_line_text, is_blank, trimmed, trim_start, trim_end, line_text, status_of, pair_of, entry_of, pair_view, read_pairs, read_block, is_written, are_written_as};
ghost use Rattle.nats_text.specs.Pieces.{pieces};

use crate::cut;

// The text of a line, whose LF is taken off: what stands before its one CR, which is its last byte.
fn line_text(line: &[u8]) -> Option<&[u8]>
    ensures { option_copied result ≡ line_text line.now }
{
    let (text, behind) = cut(line, b'\r')?;
    if behind.is_empty() { Some(text) } else { None }
}

// The status text of the first line, if any. `None` says that it is a bad line.
pub(crate) fn status_of_line(line: &[u8]) -> Option<Option<&[u8]>>
    ensures { option_map option_copied result ≡ option_and_then status_of (line_text line.now) }
{
    status_of(line_text(line)?)
}

fn status_of(text: &[u8]) -> Option<Option<&[u8]>>
    ensures { option_map option_copied result ≡ status_of text.now }
{
    match text.strip_prefix(b"NATS/1.0".as_slice())? {
        [] => Some(None),
        [b' ', status @ ..] => Some(Some(status)),
        _ => None,
    }
}

// The name and the value of a line behind the first, or nothing where it is the empty line. `None`
// says that it is a bad line.
pub(crate) fn entry_of_line(line: &[u8]) -> Option<Option<(&[u8], &[u8])>>
    ensures { option_map (option_map pair_view) result ≡ option_and_then entry_of (line_text line.now) }
{
    entry_of(line_text(line)?)
}

fn entry_of(text: &[u8]) -> Option<Option<(&[u8], &[u8])>>
    ensures { option_map (option_map pair_view) result ≡ entry_of text.now }
{
    if text.is_empty() {
        return Some(None);
    }
    Some(Some(pair_of(text)?))
}

fn pair_of(text: &[u8]) -> Option<(&[u8], &[u8])>
    ensures { option_map pair_view result ≡ pair_of text.now }
{
    let at = place_of_colon(text)?;
    let name = &text[..at];
    if is_header_name(name) {
        Some((name, trimmed(&text[at + 1..])))
    } else {
        None
    }
}

// The place of the first bad line of a block, or of what is cut, missing or too much. It takes no
// memory.
pub(crate) fn bad_line(block: &[u8]) -> Option<usize>
    ensures { result ≡ result_err (read_block block.now) }
{
    if block.is_empty() {
        return None;
    }
    let Some((line, lines)) = cut(block, b'\n') else {
        return Some(0);
    };
    if status_of_line(line).is_none() {
        return Some(0);
    }
    bad_pair_line(block.len() - lines.len(), lines)
}

// The same among the lines of the pairs, from a place on.
fn bad_pair_line(mut place: usize, lines: &[u8]) -> Option<usize>
    requires { place + length lines.now < 2 ^ 64 }
    ensures { result ≡ result_err (read_pairs place (pieces 10 lines.now)) }
{
    let mut rest = lines;
    while let Some((line, behind)) = cut(rest, b'\n') {
        let Some(entry) = entry_of_line(line) else {
            return Some(place);
        };
        place += rest.len() - behind.len();
        if entry.is_none() {
            return if behind.is_empty() { None } else { Some(place) };
        }
        rest = behind;
    }
    Some(place)
}

// Whether a block is what the writer makes of the headers that are read from it. It takes no memory.
pub(crate) fn is_written(block: &[u8]) -> bool
    ensures { result ≡ is_written block.now }
{
    if block.is_empty() {
        return true;
    }
    // Headers without status and pairs are written as no bytes.
    if block == b"NATS/1.0\r\n\r\n".as_slice() {
        return false;
    }
    match cut(block, b'\n') {
        Some((line, lines)) => status_of_line(line).is_some() && are_written(lines),
        None => false,
    }
}

// The same of the lines behind the first.
fn are_written(lines: &[u8]) -> bool
    ensures { (place : ℕ) → result ≡ are_written_as lines.now (read_pairs place (pieces 10 lines.now)) }
{
    let mut rest = lines;
    while let Some((line, behind)) = cut(rest, b'\n') {
        let Some(entry) = entry_of_line(line) else {
            return false;
        };
        let Some((name, value)) = entry else {
            return behind.is_empty();
        };
        if !is_written_line(line, name, value) {
            return false;
        }
        rest = behind;
    }
    false
}

// Whether the line, whose LF is taken off, is written of this pair.
fn is_written_line(line: &[u8], name: &[u8], value: &[u8]) -> bool
    ensures { IsTrue result ↔ (line.now ≡ name.now ++ 58 ∷ 32 ∷ value.now ++ 13 ∷ []) }
{
    let Some(behind_name) = line.strip_prefix(name) else {
        return false;
    };
    let Some(behind_colon) = behind_name.strip_prefix(b": ".as_slice()) else {
        return false;
    };
    let Some(end) = behind_colon.strip_prefix(value) else {
        return false;
    };
    end == b"\r".as_slice()
}

fn place_of_colon(text: &[u8]) -> Option<usize>
    ensures place { result ≡ position_from (λ b. b == 58) 0 text.now }
    ensures within { IfSome result (λ at. at < length text.now) }
{
    text.iter().position(|b| *b == b':')
}

pub(crate) fn is_header_name(name: &[u8]) -> bool
    ensures { result ≡ is_header_name name.now }
{
    !name.is_empty() && all_header_bytes(name)
}

fn all_header_bytes(name: &[u8]) -> bool
    ensures { result ≡ list_all is_header_byte name.now }
{
    name.iter().all(|b| is_header_byte(*b))
}

fn is_header_byte(b: u8) -> bool
    ensures { result ≡ is_header_byte b }
{
    b > 32 && b < 127 && b != b':'
}

pub(crate) fn is_header_value(value: &[u8]) -> bool
    ensures { result ≡ is_header_value value.now }
{
    is_line_text(value) && trimmed(value) == value
}

fn is_line_text(text: &[u8]) -> bool
    ensures { result ≡ is_line_text text.now }
{
    text.iter().all(|b| *b != b'\r' && *b != b'\n')
}

fn is_blank(b: u8) -> bool
    ensures { result ≡ is_blank b }
{
    b == b' ' || b == b'\t'
}

// A text without the blanks at both ends.
fn trimmed(text: &[u8]) -> &[u8]
    ensures { result.now ≡ trimmed text.now }
{
    trim_end(trim_start(text))
}

fn trim_start(text: &[u8]) -> &[u8]
    ensures { result.now ≡ trim_start text.now }
{
    let mut rest = text;
    while let [b' ' | b'\t', after @ ..] = rest {
        rest = after;
    }
    rest
}

fn trim_end(text: &[u8]) -> &[u8]
    ensures { result.now ≡ trim_end text.now }
{
    let mut rest = text;
    while let [before @ .., last] = rest {
        if !is_blank(*last) {
            break;
        }
        rest = before;
    }
    rest
}
