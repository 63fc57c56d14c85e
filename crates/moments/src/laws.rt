//! Laws of the definitions that the contracts of this crate cite. Each function does nothing: what it
//! ensures holds of all moments.
ghost use Rattle.moments.specs.Moments.{TextsAreRead};

/// Each moment is read from its text.
pub fn texts()
    ensures { TextsAreRead }
{}
