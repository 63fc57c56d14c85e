//! What holds of frames, whatever the code does: functions that do nothing, whose contracts are laws.
ghost use Rattle.nats_frames.specs.Runs.{FeedsStand, FeedsGiveFront};
ghost use Rattle.nats_frames.specs.Laws.{FramesAreWithin, FramesStay, RefusalsStay, WantsMore, WishesStay, TakesStay, TakesNext, TakenAreFront};
ghost use Rattle.leaf_frames.specs.Frames.{first};
ghost use Rattle.leaf_frames.specs.Laws.{GivesLeafFrames, ReadsEachText, ReadsItsText};

use nats_text::laws::header_blocks;

/// What a stream begins with stays, however the bytes behind it come: a frame is within its bytes, a
/// refusal is one for ever, and more bytes are wanted until they are there.
pub fn beginnings()
    ensures within { FramesAreWithin first }
    ensures frames { FramesStay first }
    ensures refusals { RefusalsStay first }
    ensures more { WantsMore first }
    ensures wishes { WishesStay first }
{}

/// Frames that were taken one after another are the front of the frames of the stream, and stay so
/// when pieces come and when the next one is taken.
pub fn taken_frames()
    ensures pieces { TakesStay first }
    ensures next { TakesNext first }
    ensures front { TakenAreFront first }
{}

/// Whatever is done with a feed, the frames that it gave are the front of the frames of the stream so far,
/// and what it holds is the rest. Once it is refused they are all of them, and its place is where the
/// rest begins.
pub fn streams()
    ensures stand { FeedsStand first }
    ensures front { FeedsGiveFront first }
{}

/// A frame is read from its written text, whatever stands behind it: each one of a leaf link, and so each
/// one that was read before.
pub fn written_frames()
    ensures kinds { GivesLeafFrames }
    ensures each { ReadsEachText }
    ensures again { ReadsItsText }
{
    header_blocks();
}
