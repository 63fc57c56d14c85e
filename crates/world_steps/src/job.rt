use shard_machine::ShardCall;

/// A call that a node is to make at one of its shards, from 0 to 7.
#[derive(Debug, Drop)]
pub struct Job {
    pub shard: u32,
    pub call: ShardCall,
}
