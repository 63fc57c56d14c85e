/// What a stop of a disk in memory leaves of what was unsynced.
#[derive(Clone, Copy, Debug, PartialEq, Eq)]
pub enum Fate {
    /// Nothing of it.
    Lost,
    /// All of it, as it was written.
    All,
    /// The first half of the bytes of each write, rounded down, and 0xA5 in the rest of its range.
    Torn,
}
