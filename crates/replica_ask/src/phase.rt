use nats_text::Stamp;

/// How far an asker is with its origin. Moments are in nanoseconds since 1970.
#[derive(Clone, Copy, Debug, PartialEq, Eq)]
pub enum Phase {
    /// Nothing is asked.
    Idle,
    /// The attempt was asked at the moment `since` and isn't answered yet.
    Asking {
        attempt: Stamp,
        since: u64,
    },
    /// The attempt was answered by this consumer, whose delivery of the number `next` is awaited. The
    /// asker last heard from it at the moment `heard`.
    Bound {
        attempt: Stamp,
        consumer: Stamp,
        next: u64,
        heard: u64,
    },
    /// The origin is another creation than the one that is copied: the creation of the number `kept`
    /// was copied, and `seen` was found. Nothing is asked any more.
    Stopped {
        kept: u64,
        seen: u64,
    },
}

/// What a packet is to an asker.
#[derive(Clone, Copy, Debug, PartialEq, Eq)]
pub enum Order {
    /// The delivery that is awaited.
    Next,
    /// A delivery of a lower number than the one that is awaited.
    Old { number: u64, next: u64 },
    /// It belongs to no attempt or consumer of this phase.
    Foreign,
    /// Deliveries from `expected` on are missing, before the number `got`.
    Gap { expected: u64, got: u64 },
    /// The consumer lives, and no delivery is missing.
    Beat,
    /// The consumer asks for an answer before it sends more.
    FlowAsk,
    /// The attempt is answered by a consumer.
    Answer,
    /// The attempt is refused.
    Refuse,
}
