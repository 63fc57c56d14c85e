ghost use Rattle.std.specs.Prelude.{◌≡◌, ◌<◌, ◌+◌, ◌++◌, length, IfOk, OnOk, IsTrue, false};
ghost use Rattle.stream_fold.specs.declared.entry.Numbered.{Numbered};
ghost use Rattle.push_consumer.specs.Counts.{progress_in, IsSound};
ghost use Rattle.push_consumer.specs.Progress.{after_row, is_spent};
ghost use Rattle.push_consumer.specs.Pumps.{packets_of};
ghost use Rattle.push_consumer.specs.Sends.{rows_from};

use crate::Consumer;
use crate::counts::Counts;
use js_wire::Packet;
use nats_text::{List, Message, NoMemory, Pattern};
use stream_fold::StreamState;

/// How many messages that one of the filters wants are kept from a number on.
pub fn count_from(state: &StreamState, start: u64, filters: &List<Pattern>) -> Result<u64, NoMemory>
    ensures { IfOk result (λ n. n ≡ length (rows_from start filters.now state.now.held.rows)) }
{
    let mut from = start;
    let mut count = 0;
    while let Some(seq) = state.next_match(from, filters) {
        from = seq.checked_add(1).ok_or(NoMemory)?;
        count += 1;
    }
    Ok(count)
}

/// Adds the delivery of a message behind which so many are still to be sent, and a flow request where
/// it is due then.
pub fn send(
    consumer: &Consumer,
    counts: &mut Counts,
    packets: &mut List<Packet>,
    seq: u64,
    message: &Message,
    pending: u64,
) -> Result<(), NoMemory>
    requires sound { IsSound counts.old }
    requires open_window { is_spent (progress_in counts.old) ≡ false }
    ensures sound { OnOk result (IsSound counts.new) }
    ensures progress { OnOk result (progress_in counts.new ≡ after_row (progress_in counts.old) (record { seq = seq; message = message.now })) }
    ensures packets { OnOk result (packets.new ≡ packets.old ++ packets_of consumer.now (progress_in counts.old) pending (record { seq = seq; message = message.now })) }
{
    counts.deliver(seq, message)?;
    packets.push(consumer.delivery(counts.count, seq, pending, message)?)?;
    if counts.asks() {
        let token = counts.request()?;
        packets.push(consumer.flow_request(token)?)?;
    }
    Ok(())
}
