//! Laws of the definitions that the contracts of this crate cite. Each function does nothing: what it
//! ensures holds of all runs.
ghost use Rattle.run_soundness.specs.Below.{Laws};
ghost use Rattle.run_soundness.specs.Laws.{AcknowledgedSurvives, PointsNeverGoBack, ShownIsEnough, WorldsSound, RunsHappen};

use push_consumer::laws::{longer_chains, right_chains, wanted_messages};
use shard_machine::laws::{images_of_logs, legality_by_images, names_of_images, steps_of_logs};
use stream_fold::laws::{
    facts_of_histories, growing_mirrors, growing_origins, growing_sources, kept_messages,
    longer_histories,
};

/// What the crates below ensure of histories, consumers and shards.
fn laws_below()
    ensures { Laws }
{
    longer_histories();
    kept_messages();
    growing_origins();
    growing_mirrors();
    growing_sources();
    facts_of_histories();
    wanted_messages();
    right_chains();
    longer_chains();
    images_of_logs();
    names_of_images();
    legality_by_images();
    steps_of_logs();
}

/// Every run from a world without nodes leads to a world that is sound, over every event: calls of
/// shards, cuts, joins, crashes, crashes within a call, and the making of a node.
pub fn world_sound()
    ensures { WorldsSound }
{
    laws_below();
}

/// No stream that was ever made goes away or back, nor does the front of a mirror or the mark of a source,
/// whatever happens, crashes included.
pub fn points_never_go_back()
    ensures { PointsNeverGoBack }
{
    laws_below();
}

/// What was acknowledged lasts: the log of a shard only grows, the entry of an accepted call is in its stream in
/// every later world, and a call that was refused has added no record of its own.
pub fn acknowledged_survives()
    ensures { AcknowledgedSurvives }
{
    laws_below();
}

/// An event leads from what is shown of a world to the same again, in every world that shows the same: what is
/// shown is all but the packets that were sent, the consumers that were made and the logs.
pub fn shown_is_enough()
    ensures { ShownIsEnough }
{}

/// Runs happen: there is one in which a node is made, makes a stream and crashes.
pub fn runs_happen()
    ensures { RunsHappen }
{}
