//! The JSON of the opening frames, as it is written.
ghost use Rattle.std.specs.Prelude.{◌≡◌, ◌++◌, IfOk, OnOk, OnErr};
ghost use Rattle.serde_json.specs.View.{view};
ghost use Rattle.serde_json.specs.Written.{compact_text};
ghost use Rattle.nats_text.specs.Headers.{Extends};
ghost use Rattle.leaf_frames.specs.Json.{hello_data};

use nats_frames::shared::{append, append_json, name_text};
use nats_text::{Name, NoMemory};
use serde_json::{Value, json};
use std::alloc::{AllocError, Global};

/// An operation with its space, and the object of a node's name.
pub(crate) fn append_hello(
    buf: &mut Vec<u8>,
    operation: &[u8],
    name: &Name,
    headers: bool,
) -> Result<(), NoMemory>
    ensures ok { OnOk result (buf.new.items ≡ buf.old.items ++ (operation.now ++ compact_text (hello_data name.now headers))) }
    ensures err { OnErr result (Extends buf.old.items buf.new.items) }
{
    append(buf, operation)?;
    let value = hello_value(*buf.allocator(), name, headers)?;
    append_json(buf, &value)
}

fn hello_value(alloc: Global, name: &Name, headers: bool) -> Result<Value, AllocError>
    ensures { IfOk result (λ value. view value ≡ hello_data name.now headers) }
{
    json!(in alloc; {
        "domain": name_text(name),
        "headers": headers,
        "name": name_text(name)
    })
}
