ghost use Rattle.std.specs.Prelude.{◌≡◌, ◌≤◌, ◌+◌, ◌^◌, ◌-◌, min, max};

/// A range of places in a file, from `start` up to `end`, which isn't in it. It is empty where it ends
/// at its start or before.
#[derive(Drop)]
pub(crate) struct Span {
    pub(crate) start: u64,
    pub(crate) end: u64,
}

impl Span {
    /// The range of nothing, which any range may be added to.
    pub(crate) fn empty() -> Span
        ensures { result ≡ record { start = 2 ^ 64 - 1; end = 0 } }
    {
        Span {
            start: u64::MAX,
            end: 0,
        }
    }

    /// Makes it reach over so many bytes at a place too.
    pub(crate) fn add(&mut self, place: u64, count: u64)
        ensures start { self.new.start ≡ min self.old.start place }
        ensures end { self.new.end ≡ max self.old.end (min (place + count) (2 ^ 64 - 1)) }
    {
        self.start = self.start.min(place);
        self.end = self.end.max(place.saturating_add(count));
    }

    /// Takes away what lies past a length.
    pub(crate) fn cut(&mut self, len: u64)
        ensures start { self.new.start ≡ self.old.start }
        ensures end { self.new.end ≡ min self.old.end len }
    {
        self.end = self.end.min(len);
    }
}
