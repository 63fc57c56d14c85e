ghost use Rattle.std.specs.Prelude.{◌≡◌, Ok, IfOk};
ghost use Rattle.record_codec.specs.Reading.{reading};
ghost use Rattle.record_codec.specs.Spelling.{spelling};

use nats_text::{Bytes, List, NoMemory};
use record_codec::{Rec, encode};
use std::alloc::Global;

/// The body of a record, as it is appended. `NoMemory` comes too where a text of it has 2^32 bytes or more,
/// or a list so many items.
pub fn prepare(alloc: Global, it: &Rec) -> Result<Bytes, NoMemory>
    ensures body { IfOk result (λ body. body ≡ spelling it.now) }
    // What is appended is read again.
    ensures again { IfOk result (λ body. reading body ≡ Ok it.now) }
{
    let mut body = Vec::new(alloc);
    encode(it, &mut body)?;
    Ok(List::from_vec(body))
}
