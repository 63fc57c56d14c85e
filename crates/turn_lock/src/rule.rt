use nats_text::List;

/// What a seat knows. No value of it is made: it is for the proof alone. The stage is 0 at rest and
/// while it waits, 1 with the value out, 2 at first and 3 while the value is put in.
pub struct View<S, O> {
    pub opening: Option<O>,
    pub seen: List<S>,
    // The shorter of the two seen histories of the last join.
    pub shorter: List<S>,
    pub own: List<(u64, S)>,
    pub turn: Option<u64>,
    pub stage: u64,
    pub parts: u64,
    pub halvings: u64,
}

/// What a lock's table is told when it is made.
pub struct Origin<V> {
    pub value: V,
    pub seats: u64,
}
