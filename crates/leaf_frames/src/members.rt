//! The JSON of the opening frames, as it is read.
ghost use Rattle.std.specs.Prelude.{◌≡◌, option_map, IfOk};
ghost use Rattle.serde_json.specs.View.{view};
ghost use Rattle.leaf_frames.specs.Json.{hello_of};

use nats_frames::shared::{name_at, switch_at};
use nats_text::{Name, NoMemory};
use serde_json::Value;
use std::alloc::Global;

/// The name of a node, and whether it takes headers: members of other names are ignored.
pub(crate) fn hello_of(alloc: Global, value: &Value) -> Result<Option<(Name, bool)>, NoMemory>
    ensures { IfOk result (λ hello. hello ≡ hello_of (view value.now)) }
{
    let Some(name) = name_at(alloc, value, "name")? else {
        return Ok(None);
    };
    Ok(with_headers(name, switch_at(value, "headers", false)))
}

fn with_headers(name: Name, headers: Option<bool>) -> Option<(Name, bool)>
    ensures { result ≡ option_map (λ it. (name, it)) headers }
{
    Some((name, headers?))
}
