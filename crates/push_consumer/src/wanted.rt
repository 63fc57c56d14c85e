use js_wire::AskerId;
use nats_text::{List, Name, Pattern, Stamp};

/// What a copy wants of its origin's stream: the kept messages from the number `start` on, of the
/// subjects that one of the filters matches, or of all subjects where there is no filter. The node
/// `origin` is the one that sends them, for this attempt of the asker.
#[derive(Clone, Debug, Drop)]
pub struct Wanted {
    pub asker: AskerId,
    pub attempt: Stamp,
    pub origin: Name,
    pub start: u64,
    pub filters: List<Pattern>,
}
