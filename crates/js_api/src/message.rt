//! The JSON of a message.
ghost use Rattle.std.specs.Prelude.{◌≡◌, ◌++◌, IfOk, OnOk};
ghost use Rattle.serde_json.specs.Data.{put as with_member};
ghost use Rattle.serde_json.specs.View.{view, members_view};
ghost use Rattle.nats_text.specs.Headers.{written};
ghost use Rattle.js_api.specs.Answers.{message_data, headers_put};

use crate::text::{base64_value, moment_value, subject_text};
use nats_text::{Headers, NoMemory};
use serde_json::{Map, Value, put};
use std::alloc::Global;
use stream_fold::Numbered;

fn written(alloc: Global, headers: &Headers) -> Result<Vec<u8>, NoMemory>
    ensures { IfOk result (λ block. block.items ≡ written headers.now) }
{
    let mut block = Vec::new(alloc);
    headers.write(&mut block)?;
    Ok(block)
}

/// Adds a header block, where it isn't empty.
fn put_headers(
    members: &mut Map<String, Value>,
    alloc: Global,
    block: &[u8],
) -> Result<(), NoMemory>
    ensures { OnOk result (members_view members.new.entries ≡ headers_put block.now (members_view members.old.entries)) }
{
    if block.is_empty() {
        return Ok(());
    }
    let value = base64_value(alloc, block)?;
    put(members, alloc, "hdrs", value)?;
    Ok(())
}

/// A message with its number.
pub(crate) fn message_value(alloc: Global, found: &Numbered) -> Result<Value, NoMemory>
    ensures { IfOk result (λ value. view value ≡ message_data found.now) }
{
    let mut members = Map::new(alloc);
    let payload = base64_value(alloc, found.message.payload.as_slice())?;
    put(&mut members, alloc, "data", payload)?;
    let block = written(alloc, &found.message.headers)?;
    put_headers(&mut members, alloc, &block)?;
    put(&mut members, alloc, "seq", Value::from(found.seq))?;
    let subject = Value::try_from_str(alloc, subject_text(&found.message.subject))?;
    put(&mut members, alloc, "subject", subject)?;
    let time = moment_value(alloc, found.message.time)?;
    put(&mut members, alloc, "time", time)?;
    Ok(Value::Object(members))
}
