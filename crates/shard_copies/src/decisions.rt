ghost use Rattle.std.specs.Prelude.{◌≡◌, ℕ, List as Items, None, IfOk};
ghost use Rattle.stream_fold.specs.Checking.{config_fault};
ghost use Rattle.stream_fold.specs.Facts.{facts};
ghost use Rattle.stream_fold.specs.Fits.{Fits};
ghost use Rattle.stream_fold.specs.Held.{StandsFor};
ghost use Rattle.stream_fold.specs.Histories.{History};
ghost use Rattle.mirror_core.specs.Entries.{IfEntry, IsJournalled};
ghost use Rattle.shard_machine.specs.Views.{View, Copy, copies_of, asker_of};
ghost use Rattle.shard_copies.specs.Asked.{copy_at, decided_at};

use js_wire::Packet;
use nats_text::NoMemory;
use replica_ask::Asker;
use std::alloc::Global;
use stream_fold::laws::facts_of_histories;
use stream_fold::{Copies, Decision, Reason, StreamState};

/// What the copy of an index with this asker does about a packet to it.
pub fn decided(
    alloc: Global,
    state: &StreamState,
    index: u32,
    asker: &Asker,
    packet: &Packet,
    now: u64,
) -> Result<Decision, NoMemory>
    requires { config_fault state.now.held.limits ≡ None }
    ensures exact { (v : View) (h : History) (name : Items ℕ) → StandsFor state.now h → ((c : Copy) → c.stream ≡ name → c.index ≡ index → asker_of v c ≡ asker.now) → IfOk result (λ decision. decision ≡ decided_at v now packet.now (copy_at index (copies_of name (facts h)))) }
    ensures fits { (h : History) → StandsFor state.now h → IfOk result (λ decision. IfEntry (Fits h) decision) }
    ensures journalled { IfOk result (λ decision. IfEntry (IsJournalled state.now.held.limits.name) decision) }
{
    facts_of_histories();
    match &state.config().copies {
        Copies::Nothing => Ok(Decision::Ignore(Reason::Foreign)),
        Copies::Mirror(_) => {
            if index == 0 {
                mirror_core::decide(alloc, state, asker, packet)
            } else {
                Ok(Decision::Ignore(Reason::Foreign))
            }
        }
        Copies::Sources(origins) => {
            if (index as usize) < origins.len() {
                source_core::decide(alloc, state, index, asker, packet, now)
            } else {
                Ok(Decision::Ignore(Reason::Foreign))
            }
        }
    }
}
