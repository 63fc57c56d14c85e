ghost use Rattle.std.specs.Prelude.{◌≡◌};
ghost use Rattle.nats_frames.specs.Stream.{sized, IsFit};

use crate::FrameText;

/// What bytes begin with.
#[derive(Drop)]
pub enum First<F> {
    /// A frame, and the length of its bytes.
    Frame { frame: F, len: usize },
    /// The beginning of a frame. The answer stays until there are so many bytes.
    More { wanted: usize },
    /// No frame, and no beginning of one.
    Refuse(FrameText),
}

/// What a line says by itself.
#[derive(Drop)]
pub enum Said<F, E> {
    /// The line is the whole frame.
    Whole(F),
    /// A header block of `block` bytes and a payload follow, `size` bytes together, in this envelope.
    Carries {
        envelope: E,
        block: usize,
        size: usize,
    },
    /// No frame has this line.
    Unfit(FrameText),
}

/// A line whose message has these sizes, of at most `most` bytes. A size that couldn't be read is
/// `None`.
pub fn sized<F: Drop, E: Drop>(
    envelope: E,
    most: usize,
    block: Option<usize>,
    size: Option<usize>,
) -> Said<F, E>
    ensures value { result ≡ sized envelope most block size }
    ensures fit { IsFit most result }
{
    let (Some(block), Some(size)) = (block, size) else {
        return Said::Unfit(FrameText::ParserError);
    };
    if size < block {
        return Said::Unfit(FrameText::ParserError);
    }
    if most < size {
        return Said::Unfit(FrameText::PayloadViolation);
    }
    Said::Carries {
        envelope,
        block,
        size,
    }
}
