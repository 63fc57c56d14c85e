//! Who gets a message.
use crate::lines::{make_all, nobody, number_in, part};
use interest_list::{CameFrom, InterestList, Target};
use nats_text::{Bytes, List, NoMemory, Subject, TextFault, pieces};
use std::alloc::Global;
use std::test::Fail;

/// Where a message came from: `client CONN`, `silent CONN` where that wants no own messages, `link CONN`, or else
/// the node itself.
fn from_in(word: &[u8], conn: u64) -> CameFrom {
    match word {
        b"client" => CameFrom::Client { conn, echo: true },
        b"silent" => CameFrom::Client { conn, echo: false },
        b"link" => CameFrom::Link { conn },
        _ => CameFrom::Inner,
    }
}

/// The groups that a message names, with commas between them, or none where it is `-`.
fn groups_in(alloc: Global, text: &[u8]) -> Result<Option<List<Bytes>>, NoMemory> {
    if text == b"-".as_slice() {
        return Ok(None);
    }
    let mut groups = List::new(alloc);
    for group in &pieces(alloc, text, b',')? {
        groups.push(Bytes::from_slice(alloc, group)?)?;
    }
    Ok(Some(groups))
}

fn write_target(target: &Target, text: &mut Vec<u8>) -> Result<(), NoMemory> {
    match target {
        Target::Client { sid, .. } => {
            text.extend_from_slice(b" client ")?;
            text.extend_from_slice(sid.as_slice())?;
        }
        Target::Link { queues, .. } => {
            text.extend_from_slice(b" link")?;
            for queue in queues.as_slice() {
                text.push(b'+')?;
                text.extend_from_slice(queue.as_slice())?;
            }
        }
        Target::Inner => text.extend_from_slice(b" inner")?,
    }
    Ok(())
}

/// Who gets the message of a line `SUBJECT PICK GROUPS FROM CONN`.
fn gets(alloc: Global, it: &InterestList, line: &[u8]) -> Result<Vec<u8>, TextFault> {
    let parts = pieces(alloc, line, b' ')?;
    let subject = Subject::read(alloc, part(&parts, 0))?;
    let pick = number_in(part(&parts, 1));
    let groups = groups_in(alloc, part(&parts, 2))?;
    let from = from_in(part(&parts, 3), number_in(part(&parts, 4)));
    let targets = it.targets(&subject, from, groups.as_ref(), pick)?;
    let mut text = Vec::new(alloc);
    for target in targets.as_slice() {
        write_target(target, &mut text)?;
    }
    Ok(text)
}

#[test]
fn each_gets_a_message_once(rt: HostRuntime) -> Result<(), Fail> {
    let alloc = rt.alloc();
    let mut it = nobody(alloc)?;
    let mut refused = make_all(
        alloc,
        &mut it,
        b"add 2 x w q;add 1 z a.* -;add 1 y a.* -;add 3 v > r;want a.b;want a.>;on 7 w q 3",
    )?;
    refused.extend_from_slice(&make_all(
        alloc,
        &mut it,
        b"on 7 a.b - 1;on 7 > - 1;on 8 a.b r 2;on 9 a.b s 5;on 9 a.* r 1;on 7 $JS.> - 1",
    )?)?;
    assert!(rt; refused.is_empty());
    for (line, want) in [
        ("w 4 - inner", " client x client v link"),
        ("w 5 - inner", " client v link+q"),
        ("w 6 - inner", " client v link+q"),
        ("w 7 - inner", " client v link+q"),
        ("w 7 - link 7", " client x client v"),
        (
            "a.b 0 - inner",
            " client y client z client v link link+s inner",
        ),
        (
            "a.b 1 - inner",
            " client y client z link link+r link+s inner",
        ),
        ("a.b 3 - inner", " client y client z link link+r+s inner"),
        ("a.b 3 s,t inner", " client y client z link link+s inner"),
        ("a.b 3 t client 1", " client y client z link inner"),
        ("a.b 3 t silent 1", " link inner"),
        ("a.b 1 r silent 3", " client y client z link link+r inner"),
        ("$JS.API.x 0 - inner", " client v"),
        ("$JS.x 0 t inner", " link"),
        ("b 0 t link 7", ""),
    ] {
        let text = gets(alloc, &it, line.as_bytes())?;
        assert!(rt; text.as_slice() == want.as_bytes(), "{line}");
    }
    Ok(())
}
