//! Laws of the definitions that the contracts of steps cite. Each function does nothing: what it ensures holds of
//! all steps.
ghost use Rattle.world_steps.specs.Laws.{StepsRun, PartsOfStepsRun, SettlingRuns, PartsOfSettlingRun, StepsKeepWhole, SettlingKeepsWhole, NewIsWhole, NodesKeepWhole};

/// The events of a step, or of a first part of one, are a run of the world of shards.
pub fn steps_are_runs()
    ensures whole { StepsRun }
    ensures part { PartsOfStepsRun }
{}

/// The events of a settling, or of a first part of one, are a run of the world of shards.
pub fn settlings_are_runs()
    ensures whole { SettlingRuns }
    ensures part { PartsOfSettlingRun }
{}

/// What holds of every net holds of it after a step, after a settling, and once a node was made.
pub fn nets_stay_whole()
    ensures step { StepsKeepWhole }
    ensures settling { SettlingKeepsWhole }
    ensures new { NewIsWhole }
    ensures node { NodesKeepWhole }
{}
