//! What holds of frames, whatever the code does: functions that do nothing, whose contracts are laws.
ghost use Rattle.nats_frames.specs.declared.frame.Side.{Side as Sender};
ghost use Rattle.nats_frames.specs.Frames.{first};
ghost use Rattle.nats_frames.specs.Runs.{FeedsStand, FeedsGiveFront};
ghost use Rattle.nats_frames.specs.Laws.{FramesAreWithin, FramesStay, RefusalsStay, WantsMore, WishesStay, TakesStay, TakesNext, TakenAreFront, GivesFramesOf, ReadsEachText, ReadsItsText};

use nats_text::laws::header_blocks;

/// What a stream begins with stays, however the bytes behind it come: a frame is within its bytes, a
/// refusal is one for ever, and more bytes are wanted until they are there.
pub fn beginnings()
    ensures within { (side : Sender) → FramesAreWithin (first side) }
    ensures frames { (side : Sender) → FramesStay (first side) }
    ensures refusals { (side : Sender) → RefusalsStay (first side) }
    ensures more { (side : Sender) → WantsMore (first side) }
    ensures wishes { (side : Sender) → WishesStay (first side) }
{}

/// Frames that were taken one after another are the front of the frames of the stream, and stay so
/// when pieces come and when the next one is taken.
pub fn taken_frames()
    ensures pieces { (side : Sender) → TakesStay (first side) }
    ensures next { (side : Sender) → TakesNext (first side) }
    ensures front { (side : Sender) → TakenAreFront (first side) }
{}

/// Whatever is done with a feed, the frames that it gave are the front of the frames of the stream so far,
/// and what it holds is the rest. Once it is refused they are all of them, and its place is where the
/// rest begins.
pub fn streams()
    ensures stand { (side : Sender) → FeedsStand (first side) }
    ensures front { (side : Sender) → FeedsGiveFront (first side) }
{}

/// A frame is read from its written text, whatever stands behind it: each one that a side may send, and so
/// each one that was read before, since a reading gives no others.
pub fn written_frames()
    ensures kinds { GivesFramesOf }
    ensures each { ReadsEachText }
    ensures again { ReadsItsText }
{
    header_blocks();
}
