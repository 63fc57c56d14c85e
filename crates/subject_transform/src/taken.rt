//! What the wildcards of a source took of a subject.
ghost use Rattle.std.specs.Prelude.{◌≡◌, ◌∷◌, ◌<◌, length, IfSome};
ghost use Rattle.std.specs.List.{join_with_byte};
ghost use Rattle.nats_text.specs.Pieces.{pieces};
ghost use Rattle.nats_text.specs.Text.{tokens};
ghost use Rattle.subject_transform.specs.PartsOf.{pieces_of};
ghost use Rattle.subject_transform.specs.Values.{taken, last_taken};

use nats_text::cut;

/// The first part of a text between the occurrences of a byte, and the text of the others.
pub(crate) fn first_piece(text: &[u8], byte: u8) -> (&[u8], Option<&[u8]>)
    ensures parts { pieces byte text.now ≡ result.0.now ∷ pieces_of byte result.1 }
    ensures shorter { IfSome result.1 (λ rest. length rest.now < length text.now) }
{
    match cut(text, byte) {
        Some((first, rest)) => (first, Some(rest)),
        None => (text, None),
    }
}

/// The token that the `*` of this number took, counted from 1, and an empty one where there is none.
/// It walks both texts, which have at most 1,024 bytes each.
pub(crate) fn taken<'a>(source: &[u8], subject: &'a [u8], number: u64) -> &'a [u8]
    ensures { result.now ≡ taken (tokens source.now) (tokens subject.now) number }
{
    let mut left = number;
    let mut sources = Some(source);
    let mut subjects = Some(subject);
    while let Some(wanted) = sources {
        let Some(given) = subjects else {
            return &subject[..0];
        };
        let (part, wanted_after) = first_piece(wanted, b'.');
        let (token, given_after) = first_piece(given, b'.');
        sources = wanted_after;
        subjects = given_after;
        if part != b"*".as_slice() {
            continue;
        }
        if left == 1 {
            return token;
        }
        left = left.saturating_sub(1);
    }
    &subject[..0]
}

/// The tokens that the last token of the source took, with dots between them.
pub(crate) fn last_taken<'a>(source: &[u8], subject: &'a [u8]) -> &'a [u8]
    ensures { result.now ≡ join_with_byte 46 (last_taken (tokens source.now) (tokens subject.now)) }
{
    let mut wanted = source;
    let mut rest = subject;
    while let Some((_, wanted_after)) = cut(wanted, b'.') {
        let Some((_, rest_after)) = cut(rest, b'.') else {
            return &subject[..0];
        };
        wanted = wanted_after;
        rest = rest_after;
    }
    rest
}
