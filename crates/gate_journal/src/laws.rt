//! Laws of the definitions that the contracts of this crate cite. The function does nothing: what it
//! ensures holds of all bytes.
ghost use Rattle.gate_journal.specs.Laws.{AreasAreRead, BreaksAreRead, AreasAreWhole, AreasAreHeld, AreasHoldBodies, HeadsAreHeld};

/// Bytes are an area, with these bodies, or break, at this place, and never both; and they hold one
/// area, whole or broken, or have no head. They are an area exactly where they hold it whole.
pub fn areas()
    ensures read { AreasAreRead }
    ensures broken { BreaksAreRead }
    ensures whole { AreasAreWhole }
    ensures held { AreasAreHeld }
    ensures bodies { AreasHoldBodies }
    ensures headless { HeadsAreHeld }
{}
