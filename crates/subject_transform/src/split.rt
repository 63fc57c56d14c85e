//! Splits of a token by a separator.
ghost use Rattle.std.specs.Prelude.{◌≡◌, ◌<◌, ◌++◌, [], ◌∷◌, length, ◌||◌, not, ◌==◌, OnOk, IfOk, IfSome, MatchOption};
ghost use Rattle.subject_transform.specs.Values.{parts_behind, split_by, added};

use nats_text::NoMemory;

/// What stands before the first occurrence of a separator, and what stands behind it.
fn cut_at<'a>(bytes: &'a [u8], separator: &[u8]) -> Option<(&'a [u8], &'a [u8])>
    requires { 0 < length separator.now }
    ensures parts { MatchOption result (parts_behind separator.now 0 bytes.now ≡ bytes.now ∷ [])
        (λ p. parts_behind separator.now 0 bytes.now ≡ p.0.now ∷ parts_behind separator.now 0 p.1.now) }
    ensures shorter { IfSome result (λ p. length p.1.now < length bytes.now) }
{
    for at in 0..bytes.len() {
        let rest = &bytes[at..];
        if rest.starts_with(separator) {
            return Some((&bytes[..at], &rest[separator.len()..]));
        }
    }
    None
}

// Adds a part that isn't empty, behind others or as the first, and says whether there are any now.
fn push_part(buf: &mut Vec<u8>, are_others: bool, part: &[u8]) -> Result<bool, NoMemory>
    ensures added { OnOk result (buf.new.items ≡ buf.old.items ++ added are_others part.now) }
    ensures others { IfOk result (λ are_some. are_some ≡ (are_others || not (length part.now == 0))) }
{
    if part.is_empty() {
        return Ok(are_others);
    }
    if are_others {
        buf.push(b'.')?;
    }
    buf.extend_from_slice(part)?;
    Ok(true)
}

/// Adds the parts of a token between the occurrences of a separator, without the empty ones, with a
/// dot between each two.
pub(crate) fn push_split(buf: &mut Vec<u8>, separator: &[u8], token: &[u8]) -> Result<(), NoMemory>
    requires { 0 < length separator.now }
    ensures { OnOk result (buf.new.items ≡ buf.old.items ++ split_by separator.now token.now) }
{
    let mut are_some = false;
    let mut rest = token;
    while let Some((part, behind)) = cut_at(rest, separator) {
        are_some = push_part(buf, are_some, part)?;
        rest = behind;
    }
    push_part(buf, are_some, rest)?;
    Ok(())
}
