ghost use Rattle.std.specs.Prelude.{◌≡◌, IfOk};
ghost use Rattle.js_wire.specs.Carried.{IsCarried};

use crate::read::read_plain;
use crate::told::tell;
use crate::{Packet, to_message};
use nats_text::laws::equal_values;
use nats_text::{NoMemory, Parcel};
use std::alloc::Global;

/// The packet that a message carries: one that is written as this very message, byte for byte. `None`
/// comes exactly where no packet is.
pub fn of_message(alloc: Global, parcel: &Parcel) -> Result<Option<Packet>, NoMemory>
    ensures { IfOk result (IsCarried parcel.now) }
{
    if let Some(packet) = read_plain(alloc, parcel)? {
        return Ok(Some(packet));
    }
    let Some(packet) = tell(alloc, parcel)? else {
        return Ok(None);
    };
    let written = to_message(alloc, &packet)?;
    equal_values();
    if written == *parcel {
        Ok(Some(packet))
    } else {
        Ok(None)
    }
}
