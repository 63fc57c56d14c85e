ghost use Rattle.std.specs.Prelude.{List};

/// A value that stands for a list of steps, from an opening, which is plain data.
pub trait Kept {
    /// What one turn does.
    type Step;

    /// What a value with no steps yet stands from.
    type Opening;

    // The opening of a value that a lock is made round.
    ghost opening: { Self → Self.Opening };

    // From the opening, the value stands for these steps.
    ghost stands: { Self → Self.Opening → List Self.Step → Type 0 };
}
