ghost use Rattle.std.specs.Prelude.{◌≡◌, ◌<◌, ◌-◌, ◌^◌, IfOk, OnOk, OnErr};
ghost use Rattle.replica_ask.specs.Askers.{new_asker, next_attempt, asking, with_phase, bound_phase, took_phase, heard_phase, IsAsking, IsBound, is_due};
ghost use Rattle.replica_ask.specs.Filters.{filters_of};
ghost use Rattle.replica_ask.specs.Orders.{order};
ghost use Rattle.replica_ask.specs.declared.phase.Phase.{Phase};

use crate::filters::filters_of;
use crate::order::{of_asking, of_bound};
use crate::{Order, Phase};
use js_wire::{AskerId, Packet};
use nats_text::{Name, NoMemory, Origin, Stamp, Start};
use std::alloc::Global;
use std::marker::Model;

/// After how long without an answer or a packet an asker asks again, in nanoseconds: 10 seconds, twice
/// the time after which a consumer that is idle beats.
const PATIENCE: u64 = 10_000_000_000;

/// Who asks for one copy: which copy it is, the boot of its shard, how many attempts it has given in
/// that boot, and its phase.
#[derive(Clone, Debug, Drop)]
pub struct Asker {
    id: AskerId,
    boot: u64,
    attempts: u64,
    phase: Phase,
}

impl Model for Asker {
    ghost use Rattle.replica_ask.specs.Askers.{AskerState};

    ghost Value = { AskerState };

    ghost view = { λ a. record { id = a.id; boot = a.boot; attempts = a.attempts; phase = a.phase } };
}

impl Asker {
    /// An asker that has asked nothing yet.
    pub fn new(id: AskerId, boot: u64) -> Asker
        ensures { result ≡ new_asker id boot }
    {
        Asker {
            id,
            boot,
            attempts: 0,
            phase: Phase::Idle,
        }
    }

    /// Which copy asks.
    pub fn id(&self) -> &AskerId
        ensures { result.now ≡ self.now.id }
    {
        &self.id
    }

    /// The boot of its shard.
    pub fn boot(&self) -> u64
        ensures { result ≡ self.now.boot }
    {
        self.boot
    }

    /// How many attempts it has given.
    pub fn attempts(&self) -> u64
        ensures { result ≡ self.now.attempts }
    {
        self.attempts
    }

    /// How far it is with its origin.
    pub fn phase(&self) -> &Phase
        ensures { result.now ≡ self.now.phase }
    {
        &self.phase
    }

    /// Asks the origin's stream on the node `origin` for its messages from a start on, by the next
    /// attempt, of the subjects that the copy wants. `NoMemory`, which comes also where `2^64 - 1`
    /// attempts were given, leaves the asker as it was.
    pub fn ask(
        &mut self,
        alloc: Global,
        now: u64,
        origin: &Name,
        want: &Origin,
        start: Start,
    ) -> Result<Packet, NoMemory>
        ensures packet { IfOk result (λ packet. packet ≡ Packet.Ask self.old.id (next_attempt self.old) origin.now want.now.stream start (filters_of want.now)) }
        ensures asks { OnOk result (self.new ≡ asking self.old now) }
        ensures once { OnOk result (self.old.attempts < 2 ^ 64 - 1) }
        ensures err { OnErr result (self.new ≡ self.old) }
    {
        let count = self.attempts.checked_add(1).ok_or(NoMemory)?;
        let attempt = Stamp {
            boot: self.boot,
            count,
        };
        let packet = Packet::Ask {
            asker: self.id.clone()?,
            attempt,
            origin: origin.clone()?,
            stream: want.stream.clone()?,
            start,
            filters: filters_of(alloc, want)?,
        };
        self.attempts = count;
        self.phase = Phase::Asking {
            attempt,
            since: now,
        };
        Ok(packet)
    }

    /// What a packet to this copy is to the asker. The packet's own asker isn't looked at.
    pub fn order(&self, packet: &Packet) -> Order
        ensures { result ≡ order self.now.phase packet.now }
    {
        match self.phase {
            Phase::Idle => Order::Foreign,
            Phase::Asking { attempt, .. } => of_asking(attempt, packet),
            Phase::Bound {
                attempt,
                consumer,
                next,
                ..
            } => of_bound(attempt, consumer, next, packet),
            Phase::Stopped { .. } => Order::Foreign,
        }
    }

    /// Takes the answer to the attempt: from this consumer deliveries are awaited, from number 1 on.
    pub fn bind(&mut self, consumer: Stamp, now: u64)
        requires { IsAsking self.old.phase }
        ensures { self.new ≡ with_phase self.old (bound_phase consumer now self.old.phase) }
    {
        if let Phase::Asking { attempt, .. } = self.phase {
            self.phase = Phase::Bound {
                attempt,
                consumer,
                next: 1,
                heard: now,
            };
        }
    }

    /// Counts the delivery that was awaited. The number that is awaited stands still at `2^64 - 1`.
    pub fn took(&mut self, now: u64)
        requires { IsBound self.old.phase }
        ensures { self.new ≡ with_phase self.old (took_phase now self.old.phase) }
    {
        if let Phase::Bound {
            attempt,
            consumer,
            next,
            ..
        } = self.phase
        {
            self.phase = Phase::Bound {
                attempt,
                consumer,
                next: next.saturating_add(1),
                heard: now,
            };
        }
    }

    /// The consumer was heard. Where none is bound nothing changes.
    pub fn heard(&mut self, now: u64)
        ensures { self.new ≡ with_phase self.old (heard_phase now self.old.phase) }
    {
        if let Phase::Bound {
            attempt,
            consumer,
            next,
            ..
        } = self.phase
        {
            self.phase = Phase::Bound {
                attempt,
                consumer,
                next,
                heard: now,
            };
        }
    }

    /// Stops: the creation of the number `kept` is copied, and the origin is that of the number `seen`.
    pub fn stop(&mut self, kept: u64, seen: u64)
        ensures { self.new ≡ with_phase self.old (Phase.Stopped kept seen) }
    {
        self.phase = Phase::Stopped { kept, seen };
    }

    /// Whether it is time to ask: nothing is asked, or the moment of the request or of the last packet
    /// is 10 seconds or more away, before `now` or behind it. So a clock that steps back far makes an
    /// asker due, and one that steps back a little doesn't. An asker that is stopped never is.
    pub fn due(&self, now: u64) -> bool
        ensures { result ≡ is_due now self.now.phase }
    {
        match self.phase {
            Phase::Idle => true,
            Phase::Asking { since, .. } => since.abs_diff(now) >= PATIENCE,
            Phase::Bound { heard, .. } => heard.abs_diff(now) >= PATIENCE,
            Phase::Stopped { .. } => false,
        }
    }

    /// Forgets what was asked, as the link to the origin went.
    pub fn lost_link(&mut self)
        ensures { self.new ≡ with_phase self.old Phase.Idle }
    {
        self.phase = Phase::Idle;
    }
}
