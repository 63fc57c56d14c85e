//! What a link is told.
ghost use Rattle.std.specs.Prelude.{IfOk, IsTrue};
ghost use Rattle.interest_list.specs.Changes.{has_weight};

use crate::lines::{make_all, nobody, write_all};
use interest_list::{Carrier, Change, InterestList};
use leaf_frames::{LeafFrame, write_leaf};
use nats_text::{Bytes, List, NoMemory, Pattern, TextFault};
use std::alloc::Global;
use std::test::Fail;

/// The names of the refusals among the changes of a text, and the frames that then tell link 7.
fn told(alloc: Global, it: &mut InterestList, text: &[u8]) -> Result<Vec<u8>, TextFault> {
    let mut all = make_all(alloc, it, text)?;
    let frames = it.changes_for(7)?;
    write_all(frames.as_slice(), &mut all)?;
    Ok(all)
}

#[test]
fn a_link_is_told_of_the_last_that_goes(rt: HostRuntime) -> Result<(), Fail> {
    let mut it = nobody(rt.alloc())?;
    for (text, want) in [
        (
            "add 1 1 a.* -;add 2 9 a.* -;add 1 2 a.* q;add 2 8 a.* q",
            "LS+ a.*\r\nLS+ a.* q 2\r\n",
        ),
        ("remove 1 1", ""),
        ("remove 2 8", "LS+ a.* q 1\r\n"),
        ("remove 2 9", "LS- a.*\r\n"),
        ("remove 1 2", "LS- a.* q\r\n"),
        ("remove 1 2", "NoSid"),
        ("add 1 5 b -;add 1 5 c -", "SidTakenLS+ b\r\n"),
        ("on 7 c - 1;on 7 $JS.API.x - 1;add 1 6 $JS.API.x -", ""),
        ("on 5 c q 65536", "LS+ c q 65536\r\n"),
        ("on 6 c q 1;on 7 c q 9", ""),
        ("on 5 c q 3;on 6 c q 4", "LS+ c q 7\r\n"),
        ("off 6 c q;off 6 c q;off 6 c -", "NoSidNoSidLS+ c q 3\r\n"),
        ("want d;want d;want b", "LS+ d\r\n"),
        ("leave d;leave d;drop 1", "NoSidLS- d\r\n"),
        ("leave b;drop 5", "LS- b\r\nLS- c q\r\n"),
    ] {
        let all = told(rt.alloc(), &mut it, text.as_bytes())?;
        assert!(rt; all.as_slice() == want.as_bytes(), "{text}");
    }
    Ok(())
}

/// A frame to a link.
#[derive(Drop)]
struct Sent {
    link: u64,
    frame: LeafFrame,
}

impl Carrier for Sent {
    ghost carried = { λ link frame. record { link = link; frame = frame } };

    fn carry(link: u64, frame: LeafFrame) -> Sent {
        Sent { link, frame }
    }
}

/// Client 1 subscribes to a pattern under a number.
fn subscribes(alloc: Global, sid: &[u8], pattern: &[u8]) -> Result<Change, TextFault>
    ensures { IfOk result (λ it. IsTrue (has_weight it)) }
{
    Ok(Change::Add {
        conn: 1,
        sid: Bytes::from_slice(alloc, sid)?,
        pattern: Pattern::read(alloc, pattern)?,
        queue: None,
    })
}

/// Client 1 subscribes twice and link 6 goes; links 7 and 8 are told. Gives the frames, each behind the last
/// digit of its link.
fn both(alloc: Global, it: &mut InterestList, second: &[u8]) -> Result<Vec<u8>, TextFault> {
    let mut changes = List::new(alloc);
    changes.push(subscribes(alloc, b"1", b"a")?)?;
    changes.push(Change::DropConn { conn: 6 })?;
    changes.push(subscribes(alloc, second, b"b")?)?;
    let mut links = List::new(alloc);
    links.push(7)?;
    links.push(8)?;
    let first: List<Sent> = List::new(alloc);
    let mut text = Vec::new(alloc);
    match it.change(changes, &links, first) {
        Ok(sent) => write_sent(sent.as_slice(), &mut text)?,
        Err(_) => text.extend_from_slice(b"refused")?,
    }
    Ok(text)
}

fn write_sent(all: &[Sent], text: &mut Vec<u8>) -> Result<(), NoMemory> {
    for sent in all {
        text.push(if sent.link == 7 { b'7' } else { b'8' })?;
        write_leaf(&sent.frame, text)?;
    }
    Ok(())
}

#[test]
fn changes_are_made_and_told_as_one(rt: HostRuntime) -> Result<(), Fail> {
    let alloc = rt.alloc();
    let mut it = nobody(alloc)?;
    let refused = make_all(alloc, &mut it, b"on 6 c - 1;on 8 d - 1")?;
    assert!(rt; refused.is_empty());
    let none = both(alloc, &mut it, b"1")?;
    assert!(rt; none.as_slice() == b"refused".as_slice());
    let all = both(alloc, &mut it, b"2")?;
    let want = "7LS+ a\r\n7LS+ b\r\n7LS+ d\r\n8LS+ a\r\n8LS+ b\r\n";
    assert!(rt; all.as_slice() == want.as_bytes());
    Ok(())
}
