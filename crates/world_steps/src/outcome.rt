use shard_machine::ShardReply;

/// What a step answers.
#[derive(Debug, Drop)]
pub enum StepOutcome {
    /// The shard's reply to the call that was named.
    Reply(ShardReply),
    /// The event names no call.
    Quiet,
}
