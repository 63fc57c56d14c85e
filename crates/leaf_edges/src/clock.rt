ghost use Rattle.std.specs.Prelude.{◌≡◌, ◌<◌, ◌^◌, [], ℕ, IfSome};
ghost use Rattle.leaf_edges.specs.Clocks.{Gives};

/// What tells the time: nanoseconds since 1970, from 0 to `2^63 - 1`. It may step back.
pub trait Clock: Sized + Drop {
    ghost use Rattle.std.specs.Prelude.{List, Option};

    /// The moments that it gave, the first first, where the clock tells them.
    ghost given: { Self → Option (List ℕ) };

    /// The present moment.
    fn now(&mut self) -> u64
        ensures bound { result < 2 ^ 63 }
        ensures given { Gives (given self.old) (given self.new) result };

    /// A second clock, which has given no moment yet.
    fn fork(&self) -> Self
        ensures { IfSome (given result) (λ moments. moments ≡ []) };
}
