ghost use Rattle.std.specs.Prelude.{◌≡◌, ◌+◌, IfOk, OnOk, OnErr, true, false};
ghost use Rattle.js_wire.specs.declared.packet.Packet.{Packet};
ghost use Rattle.push_consumer.specs.Counts.{progress_in, IsSound};
ghost use Rattle.push_consumer.specs.Progress.{ConsumerState, new_consumer, outstanding, answered_by, beat, beats, beat_at, after_beat};
ghost use Rattle.push_consumer.specs.Pumps.{packets_sent, rows_sent, pump_packets, pumped};
ghost use Rattle.push_consumer.specs.Progress.{after_rows};
ghost use Rattle.push_consumer.specs.Sends.{to_send};

use crate::Wanted;
use crate::counts::Counts;
use crate::send::{count_from, send};
use js_wire::Packet;
use nats_text::{List, Message, Name, NoMemory, Stamp};
use std::alloc::Global;
use std::marker::Model;
use stream_fold::StreamState;

/// After how long a consumer that is idle beats, in nanoseconds: 5 seconds.
const BEAT: u64 = 5_000_000_000;

/// What an origin sends to one copy, for one attempt of it. It holds how far it has come and not what
/// it sent, so that its memory doesn't grow.
#[derive(Clone, Debug, Drop)]
pub struct Consumer {
    name: Stamp,
    stream: Name,
    wanted: Wanted,
    counts: Counts,
    paused: bool,
    moment: u64,
}

impl Model for Consumer {
    ghost use Rattle.push_consumer.specs.Counts.{progress_in, IsSound};
    ghost use Rattle.push_consumer.specs.Progress.{ConsumerState};

    ghost Value = { ConsumerState };

    ghost view = { λ c. record { name = c.name; stream = c.stream; wanted = c.wanted; progress = progress_in c.counts; paused = c.paused; moment = c.moment } };

    ghost invariant = { λ c. IsSound c.counts };
}

impl Consumer {
    /// A consumer of a stream that has sent nothing yet, made at the moment `now`, in nanoseconds since
    /// 1970.
    pub fn new(name: Stamp, stream: Name, wanted: Wanted, now: u64) -> Consumer
        ensures { result ≡ new_consumer name stream wanted now }
    {
        Consumer {
            name,
            stream,
            wanted,
            counts: Counts::new(),
            paused: false,
            moment: now,
        }
    }

    /// Its name, which is given once.
    pub fn name(&self) -> Stamp
        ensures { result ≡ self.now.name }
    {
        self.name
    }

    /// The stream that it reads.
    pub fn stream(&self) -> &Name
        ensures { result.now ≡ self.now.stream }
    {
        &self.stream
    }

    /// What its copy wants.
    pub fn wanted(&self) -> &Wanted
        ensures { result.now ≡ self.now.wanted }
    {
        &self.wanted
    }

    /// The bytes of the messages that were sent since the last flow request that was answered.
    pub fn outstanding(&self) -> u64
        ensures { result ≡ outstanding self.now.progress }
    {
        self.counts.outstanding()
    }

    /// Sends the kept messages that come next, one after another, while the budget of messages lasts
    /// and fewer than 1,048,576 bytes are outstanding; a consumer that is paused sends none. A flow
    /// request follows each delivery that brings the bytes since the request before to 262,144 or
    /// more. Each delivery tells how many messages are kept for this consumer behind its own.
    ///
    /// `NoMemory` leaves the consumer as it was. It comes also where a number of a delivery, of a message
    /// or of a token, or the bytes that are outstanding, would pass `2^64 - 1`.
    pub fn pump(
        &mut self,
        alloc: Global,
        state: &StreamState,
        budget: u32,
        now: u64,
    ) -> Result<List<Packet>, NoMemory>
        ensures packets { IfOk result (λ packets. packets ≡ pump_packets state.now.held.rows budget self.old) }
        ensures after { OnOk result (self.new ≡ pumped state.now.held.rows budget now self.old) }
        ensures err { OnErr result (self.new ≡ self.old) }
    {
        if self.paused {
            return Ok(List::new(alloc));
        }
        let (packets, counts) = self.send_all(alloc, state, budget)?;
        self.counts = counts;
        if !packets.is_empty() {
            self.moment = now;
        }
        Ok(packets)
    }

    // The packets of a pump, and how far they bring the consumer.
    fn send_all(
        &self,
        alloc: Global,
        state: &StreamState,
        budget: u32,
    ) -> Result<(List<Packet>, Counts), NoMemory>
        ensures packets { IfOk result (λ it. it.0 ≡ packets_sent self.now budget self.now.progress (to_send state.now.held.rows self.now)) }
        ensures progress { IfOk result (λ it. progress_in it.1 ≡ after_rows self.now.progress (rows_sent budget self.now.progress (to_send state.now.held.rows self.now))) }
        ensures sound { IfOk result (λ it. IsSound it.1) }
    {
        let filters = &self.wanted.filters;
        let mut from = self.counts.next_number(self.wanted.start)?;
        let mut pending = count_from(state, from, filters)?;
        let mut counts = self.counts;
        let mut packets = List::new(alloc);
        let mut left = budget;
        while left > 0 && !counts.is_spent() {
            let Some(seq) = state.next_match(from, filters) else {
                break;
            };
            let message = state.kept(seq).unwrap();
            pending -= 1;
            send(self, &mut counts, &mut packets, seq, message, pending)?;
            from = seq.checked_add(1).ok_or(NoMemory)?;
            left -= 1;
        }
        Ok((packets, counts))
    }

    pub(crate) fn delivery(
        &self,
        number: u64,
        seq: u64,
        pending: u64,
        message: &Message,
    ) -> Result<Packet, NoMemory>
        ensures { IfOk result (λ packet. packet ≡ Packet.Delivery self.now.wanted.asker self.now.wanted.attempt self.now.stream self.now.name number seq pending message.now) }
    {
        Ok(Packet::Delivery {
            asker: self.wanted.asker.clone()?,
            attempt: self.wanted.attempt,
            stream: self.stream.clone()?,
            consumer: self.name,
            number,
            seq,
            pending,
            message: message.clone()?,
        })
    }

    pub(crate) fn flow_request(&self, token: u64) -> Result<Packet, NoMemory>
        ensures { IfOk result (λ packet. packet ≡ Packet.FlowAsk self.now.wanted.asker self.now.wanted.attempt self.now.wanted.origin self.now.stream self.now.name token) }
    {
        Ok(Packet::FlowAsk {
            asker: self.wanted.asker.clone()?,
            attempt: self.wanted.attempt,
            origin: self.wanted.origin.clone()?,
            stream: self.stream.clone()?,
            consumer: self.name,
            token,
        })
    }

    /// Takes the answer to a flow request by its token. It answers the requests before it too. A token
    /// of an earlier answer or of no request yet changes nothing.
    pub fn on_reply(&mut self, token: u64)
        ensures { self.new ≡ record self.old { progress = answered_by token self.old.progress } }
    {
        self.counts.answer(token);
    }

    /// The beat of a consumer that isn't paused, where 5 seconds or more passed since its last packet,
    /// or since it was made. It tells how many deliveries were sent and the last one's number in the
    /// stream, and where the window is spent the token of the latest flow request. `NoMemory` leaves
    /// the consumer as it was.
    pub fn tick(&mut self, alloc: Global, now: u64) -> Result<Option<Packet>, NoMemory>
        ensures packet { IfOk result (λ packet. packet ≡ beat_at now self.old) }
        ensures after { OnOk result (self.new ≡ after_beat now self.old) }
        ensures err { OnErr result (self.new ≡ self.old) }
    {
        if !self.beats(now) {
            return Ok(None);
        }
        let beat = self.beat()?;
        self.moment = now;
        Ok(Some(beat))
    }

    /// Whether it is time for a beat: it isn't paused, and 5 seconds or more passed since its last
    /// packet, or since it was made.
    pub fn beats(&self, now: u64) -> bool
        ensures { result ≡ beats now self.now }
    {
        !self.paused && self.moment <= now && now - self.moment >= BEAT
    }

    /// The beat, whether it is time for it or not.
    pub fn beat(&self) -> Result<Packet, NoMemory>
        ensures { IfOk result (λ packet. packet ≡ beat self.now) }
    {
        Ok(Packet::Beat {
            asker: self.wanted.asker.clone()?,
            attempt: self.wanted.attempt,
            origin: self.wanted.origin.clone()?,
            stream: self.stream.clone()?,
            consumer: self.name,
            last_number: self.counts.count,
            last_seq: self.counts.last,
            stalled: self.counts.stalled(),
        })
    }

    /// Counts a beat as sent, where it was time for one. It takes no memory, so that the beats of several
    /// consumers can be made first.
    pub fn beaten(&mut self, now: u64)
        ensures { self.new ≡ after_beat now self.old }
    {
        if self.beats(now) {
            self.moment = now;
        }
    }

    /// Stops the sending, as the link to the copy went.
    pub fn pause(&mut self)
        ensures { self.new ≡ record self.old { paused = true } }
    {
        self.paused = true;
    }

    /// Goes on with the sending.
    pub fn resume(&mut self)
        ensures { self.new ≡ record self.old { paused = false } }
    {
        self.paused = false;
    }
}
