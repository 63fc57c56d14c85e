//! What a source makes of the messages of its origin.
ghost use Rattle.std.specs.Prelude.{◌≡◌, ◌≤◌, length, IfOk, IfSome, OnOk};
ghost use Rattle.nats_text.specs.Headers.{with_value};
ghost use Rattle.stream_fold.specs.Sourcing.{source_name, source_value, via};
ghost use Rattle.source_core.specs.Origins.{IsLittleMore, IsSource, IsTold};

use crate::header::source_value;
use crate::routes::{Route, route_of};
use nats_text::{Bytes, Headers, Message, NoMemory, Origin};
use std::alloc::Global;

/// What a source makes of its origin's message of this number: nothing where neither its filter nor a
/// map takes the subject, and else the message under the subject that the first map whose source
/// matches gives it, with one header `Nats-Stream-Source`, which tells where it comes from.
pub fn via(
    alloc: Global,
    _index: u32,
    want: &Origin,
    message: &Message,
    seq: u64,
) -> Result<Option<Message>, NoMemory>
    requires { IsSource want.now }
    ensures value { IfOk result (λ made. made ≡ via want.now message.now seq) }
    ensures size { IfOk result (λ made. IfSome made (λ m. IsLittleMore message.now m)) }
{
    let Some(route) = route_of(alloc, want, &message.subject)? else {
        return Ok(None);
    };
    let headers = told_headers(alloc, want, &route, message, seq)?;
    let payload = copied_payload(message)?;
    Ok(Some(Message {
        subject: route.into_subject(),
        headers,
        payload,
        time: message.time,
    }))
}

/// The headers of the message with the one that tells where it comes from.
fn told_headers(
    alloc: Global,
    want: &Origin,
    route: &Route,
    message: &Message,
    seq: u64,
) -> Result<Headers, NoMemory>
    requires { IsTold route.now }
    ensures value { IfOk result (λ headers. headers ≡ with_value source_name (source_value want.now route.now message.now.subject seq) message.now.headers) }
    ensures short { OnOk result (length (source_value want.now route.now message.now.subject seq) ≤ 3200) }
{
    let value = source_value(alloc, want, route, &message.subject, seq)?;
    let mut headers = copied_headers(message)?;
    headers.set(b"Nats-Stream-Source", value.as_slice())?;
    Ok(headers)
}

fn copied_headers(message: &Message) -> Result<Headers, NoMemory>
    ensures { IfOk result (λ headers. headers ≡ message.now.headers) }
{
    Ok(message.headers.clone()?)
}

fn copied_payload(message: &Message) -> Result<Bytes, NoMemory>
    ensures { IfOk result (λ payload. payload ≡ message.now.payload) }
{
    Ok(message.payload.clone()?)
}
