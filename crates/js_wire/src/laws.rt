//! Laws of the definitions that the contracts of this crate cite. Each function does nothing: what it
//! ensures holds of all packets.
ghost use Rattle.js_wire.specs.Carried.{OneMessageEach};

/// No two packets are carried by one message, so that a packet comes out of its message as it went in.
pub fn packets()
    ensures { OneMessageEach }
{}
