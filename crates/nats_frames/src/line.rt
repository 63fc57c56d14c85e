ghost use Rattle.std.specs.Prelude.{◌≡◌, ◌+◌, ◌^◌, ◌<◌, ◌≤◌, length, take, IfSome, IsTrue};
ghost use Rattle.std.specs.List.{position_from};
ghost use Rattle.nats_frames.specs.Lines.{is_feed, has_no_feed, ending, ending_at, line_end, IsEndWithin};

use crate::FrameText;

/// How the first line of some bytes ends.
#[derive(Clone, Copy)]
pub enum LineEnd {
    /// No line ends here yet, and it may still do so within its greatest length.
    Missing,
    /// CR LF stand at this place.
    At(usize),
    /// The line is too long, or ends without CR.
    Bad(FrameText),
}

/// How the first line ends, where a line has at most `most` bytes before its CR LF. No LF is among the
/// first `looked` bytes, which aren't looked at again.
pub fn line_end(bytes: &[u8], most: usize, looked: usize) -> LineEnd
    requires bound { most + 1 < 2 ^ 64 }
    requires looked { looked ≤ length bytes.now }
    requires none { IsTrue (has_no_feed (take looked bytes.now)) }
    ensures end { result ≡ line_end most bytes.now }
    ensures within { IsEndWithin most (length bytes.now) result }
{
    ending_at(bytes, most, feed_behind(bytes, looked))
}

// The place of the first LF, which isn't among the first `looked` bytes.
fn feed_behind(bytes: &[u8], looked: usize) -> Option<usize>
    requires looked { looked ≤ length bytes.now }
    requires none { IsTrue (has_no_feed (take looked bytes.now)) }
    ensures place { result ≡ position_from is_feed 0 bytes.now }
    ensures within { IfSome result (λ at. at < length bytes.now) }
{
    let at = feed_position(&bytes[looked..])?;
    Some(looked + at)
}

/// So many bytes at the front, at least `looked`, have no LF among them: all before the first one.
pub(crate) fn free_len(bytes: &[u8], looked: usize) -> usize
    requires looked { looked ≤ length bytes.now }
    requires none { IsTrue (has_no_feed (take looked bytes.now)) }
    ensures within { result ≤ length bytes.now }
    ensures none { IsTrue (has_no_feed (take result bytes.now)) }
{
    match feed_position(&bytes[looked..]) {
        Some(at) => looked + at,
        None => bytes.len(),
    }
}

// The place of the first LF.
fn feed_position(bytes: &[u8]) -> Option<usize>
    ensures place { result ≡ position_from is_feed 0 bytes.now }
    ensures within { IfSome result (λ at. at < length bytes.now) }
{
    bytes.iter().position(|b| *b == b'\n')
}

// How a line ends whose LF stands at this place, if anywhere.
fn ending_at(bytes: &[u8], most: usize, place: Option<usize>) -> LineEnd
    requires bound { most + 1 < 2 ^ 64 }
    requires within { IfSome place (λ at. at < length bytes.now) }
    ensures { result ≡ ending_at most bytes.now place }
{
    match place {
        Some(at) => ending(bytes, most, at),
        None => {
            if bytes.len() > most + 1 {
                LineEnd::Bad(FrameText::ControlLine)
            } else {
                LineEnd::Missing
            }
        }
    }
}

// How a line ends whose LF stands at this place.
fn ending(bytes: &[u8], most: usize, at: usize) -> LineEnd
    requires bound { most + 1 < 2 ^ 64 }
    requires within { at < length bytes.now }
    ensures { result ≡ ending most bytes.now at }
{
    if at > most + 1 {
        return LineEnd::Bad(FrameText::ControlLine);
    }
    if at > 0 && bytes[at - 1] == b'\r' {
        LineEnd::At(at - 1)
    } else {
        LineEnd::Bad(FrameText::ParserError)
    }
}
