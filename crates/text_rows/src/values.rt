//! That copies of values are equal to them, and that `==` tells equal values.
ghost use Rattle.std.specs.Prelude.{◌≡◌, ◌↔◌, IfOk, IsTrue};

use nats_text::{
    Bytes, Headers, List, Mapping, Message, Name, NoMemory, Origin, Parcel, Pattern, Start,
    Subject, TextFault,
};
use std::alloc::{AllocError, Global};
use std::test::Fail;

fn copied_origin(x: &Origin) -> Result<Origin, NoMemory>
    ensures { IfOk result (λ y. y ≡ x.now) }
{
    Ok(x.clone()?)
}

fn same_origin(x: &Origin, y: &Origin) -> bool
    ensures { IsTrue result ↔ (x.now ≡ y.now) }
{
    x == y
}

fn origin(alloc: Global, dest: &[u8]) -> Result<Origin, TextFault> {
    let mut maps = List::new(alloc);
    maps.push(mapping(alloc, dest)?)?;
    let filter = Pattern::read(alloc, b"a.>")?;
    let stream = Name::read(alloc, b"ORDERS")?;
    Ok(Origin {
        node: None,
        stream,
        start: Start::Seq(1),
        filter: Some(filter),
        maps,
    })
}

fn mapping(alloc: Global, dest: &[u8]) -> Result<Mapping, TextFault> {
    let src = Bytes::from_slice(alloc, b"a.*")?;
    let dest = Bytes::from_slice(alloc, dest)?;
    Ok(Mapping { src, dest })
}

#[test]
fn origins_are_copied_and_compared(rt: HostRuntime) -> Result<(), Fail> {
    let differ = origins_differ(rt.alloc())?;
    let one = origin(rt.alloc(), b"b.$1")?;
    let is_copied = is_origin_copied(&one)?;
    assert!(rt; differ && is_copied);
    Ok(())
}

fn is_origin_copied(one: &Origin) -> Result<bool, NoMemory> {
    let copy = copied_origin(one)?;
    Ok(same_origin(&copy, one))
}

fn origins_differ(alloc: Global) -> Result<bool, TextFault> {
    let one = origin(alloc, b"b.$1")?;
    let other = origin(alloc, b"c.$1")?;
    Ok(!same_origin(&one, &other))
}

fn message(alloc: Global, headers: &[u8]) -> Result<Message, TextFault> {
    let headers = Headers::read(alloc, headers)?;
    let payload = Bytes::from_slice(alloc, b"hello")?;
    let subject = Subject::read(alloc, b"a.b")?;
    Ok(Message {
        subject,
        headers,
        payload,
        time: 7,
    })
}

// A subject of three bytes, a payload of five, and a header block of eighteen: `NATS/1.0`, `A: 1` and an
// empty line.
#[test]
fn messages_are_copied_and_measured(rt: HostRuntime) -> Result<(), Fail> {
    let differ = messages_differ(rt.alloc())?;
    let one = message(rt.alloc(), b"NATS/1.0\r\nA:1\r\n\r\n")?;
    let is_copied = is_message_copied(&one)?;
    assert!(rt; differ && is_copied);
    Ok(())
}

fn is_message_copied(one: &Message) -> Result<bool, AllocError> {
    let copy = one.clone()?;
    Ok(copy == *one && copy.size() == 26)
}

fn messages_differ(alloc: Global) -> Result<bool, TextFault> {
    let one = message(alloc, b"NATS/1.0\r\nA:1\r\n\r\n")?;
    let other = message(alloc, b"")?;
    Ok(one != other && other.size() == 8)
}

fn parcel(alloc: Global) -> Result<Parcel, TextFault> {
    let subject = Subject::read(alloc, b"a.b")?;
    Ok(Parcel {
        subject,
        reply: None,
        headers: Headers::empty(alloc),
        payload: Bytes::new(alloc),
    })
}

fn answered_parcel(alloc: Global) -> Result<Parcel, TextFault> {
    let reply = Subject::read(alloc, b"a.b")?;
    let mut parcel = parcel(alloc)?;
    parcel.reply = Some(reply);
    Ok(parcel)
}

#[test]
fn parcels_are_copied_and_compared(rt: HostRuntime) -> Result<(), Fail> {
    let differ = parcels_differ(rt.alloc())?;
    let one = parcel(rt.alloc())?;
    let is_copied = is_parcel_copied(&one)?;
    assert!(rt; differ && is_copied);
    Ok(())
}

fn is_parcel_copied(one: &Parcel) -> Result<bool, AllocError> {
    let copy = one.clone()?;
    Ok(copy == *one)
}

fn parcels_differ(alloc: Global) -> Result<bool, TextFault> {
    let one = parcel(alloc)?;
    let other = answered_parcel(alloc)?;
    Ok(one != other)
}

#[test]
fn a_list_is_a_vector(rt: HostRuntime) -> Result<(), Fail> {
    let list = List::from_vec(vec![in rt.alloc(); 1, 2]?);
    assert!(rt; list.len() == 2);
    assert!(rt; list.into_vec().as_slice() == [1, 2].as_slice());
    Ok(())
}
