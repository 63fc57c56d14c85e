use nats_text::Name;

/// Which of a stream's copies are to ask.
#[derive(Debug, Drop)]
pub enum Chosen {
    All,
    /// Those whose askers are due.
    Due,
    /// Those of streams of this node.
    OfNode(Name),
}
