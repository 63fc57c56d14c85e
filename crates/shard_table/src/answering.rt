//! What calls are answered.
ghost use Rattle.shard_machine.specs.Views.{View};

use crate::{Answered, Table};
use shard_machine::{ShardCall, ShardRefusal};

impl Table {
    ghost use Rattle.shard_table.specs.Answering.{Gives};
    ghost use Rattle.shard_table.specs.Holding.{Holds};

    /// What a call is answered. Where it makes no record it is done. Where it makes one nothing has changed, and
    /// [`Table::commit`] does it, unless the answer is forgotten. `NoMemory` leaves all as it was.
    pub fn answer(&mut self, call: &ShardCall) -> Result<Answered, ShardRefusal>
        requires { (v : View) × Holds self.old v }
        ensures { (v : View) → Holds self.old v → Gives v call.now result self.new }
    {
        match call {
            ShardCall::Create { config, now } => self.create(config, *now),
            ShardCall::Update { config } => self.update(config),
            ShardCall::Remove { name } => self.remove(name),
            ShardCall::Publish { name, message, now } => self.publish(name, message, *now),
            ShardCall::Delete { name, seq } => self.delete(name, *seq),
            ShardCall::Purge {
                name,
                pattern,
                below,
            } => self.purge(name, pattern, *below),
            ShardCall::Expire { name, now } => self.expire(name, *now),
            ShardCall::Get { name, which } => self.get(name, which),
            ShardCall::Info { name } => self.info(name),
            ShardCall::Names => self.names(),
            ShardCall::MakeConsumer { ask, now } => self.make_consumer(ask, *now),
            ShardCall::Pump { name, budget, now } => self.pump(name, *budget, *now),
            ShardCall::FlowReply { packet } => self.flow_reply(packet),
            ShardCall::Reach { node, there, now } => self.reach(node, *there, *now),
            ShardCall::Heard { packet, now } => self.heard(packet, *now),
            ShardCall::Tick { now } => self.tick(*now),
            ShardCall::LinkLost => self.link_lost(),
        }
    }
}
