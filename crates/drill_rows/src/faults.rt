use crate::run::{Want, check_with};
use leaf_edges::{EdgeError, MemSink, MemSource, Source};
use leafd_cli::Status;
use leafd_conf::ConfKind;
use leafd_script::ScriptKind;
use nats_text::Bytes;
use std::test::Fail;
use subject_transform::TransformKind;

const SCRIPT: &[u8] = b"node hub\nstream hub S\npub hub S S a\n";

const USAGE: &[u8] =
    b"leafd: usage: leafd drill | make NUMBER LINES | trial NUMBER LINES | check CONF | inspect DIR | map SRC DEST SUBJECT | serve CONF\n";

#[test]
fn words_that_are_no_command(rt: HostRuntime) -> Result<(), Fail> {
    let rows: [&[&str]; 18] = [
        &[],
        &[""],
        &["drills"],
        &["drill", "drill"],
        &["serve", "leafd.toml"],
        &["Drill"],
        &["inspect"],
        &["inspect", "store", "store"],
        &["drill", "store"],
        &["map"],
        &["map", "foo.*", "bar.$1"],
        &["map", "foo.*", "bar.$1", "foo.a", "foo.a"],
        &["Map", "foo.*", "bar.$1", "foo.a"],
        &["map", "-a", "b", "-a"],
        &["check"],
        &["check", "hub.toml", "hub.toml"],
        &["check", "-hub.toml"],
        &["--help"],
    ];
    for words in rows {
        let alloc = rt.alloc();
        let input = MemSource::new(SCRIPT.to_vec(alloc)?, Vec::new(alloc));
        let out = MemSink::new(Vec::new(alloc), Vec::new(alloc));
        let want = Want {
            number: 2,
            out: b"",
            err: USAGE,
        };
        check_with(&rt, alloc, words, input, out, &want)?;
    }
    Ok(())
}

#[test]
fn an_input_that_fails(rt: HostRuntime) -> Result<(), Fail> {
    for call in 1..=2 {
        let alloc = rt.alloc();
        let input = MemSource::new(SCRIPT.to_vec(alloc)?, vec![in alloc; call]?);
        let out = MemSink::new(Vec::new(alloc), Vec::new(alloc));
        let want = Want {
            number: 3,
            out: b"",
            err: b"leafd: read fault\n",
        };
        check_with(&rt, alloc, &["drill"], input, out, &want)?;
    }
    Ok(())
}

/// An input for which there is no memory.
#[derive(Drop)]
struct Starved;

impl Source for Starved {
    ghost use Rattle.std.specs.Prelude.{None};

    ghost left = { λ _. None };

    ghost faults = { λ _. 0 };

    fn read(&mut self, _buf: &mut [u8]) -> Result<usize, EdgeError> {
        Err(EdgeError::NoMemory)
    }
}

#[test]
fn an_input_without_memory(rt: HostRuntime) -> Result<(), Fail> {
    let out = MemSink::new(Vec::new(rt.alloc()), Vec::new(rt.alloc()));
    let want = Want {
        number: 6,
        out: b"",
        err: b"leafd: out of memory\n",
    };
    check_with(&rt, rt.alloc(), &["drill"], Starved, out, &want)
}

#[test]
fn an_output_that_fails(rt: HostRuntime) -> Result<(), Fail> {
    let rows: [(u64, &[u8]); 2] = [(1, b""), (2, b"2 made\n")];
    for (call, report) in rows {
        let alloc = rt.alloc();
        let input = MemSource::new(SCRIPT.to_vec(alloc)?, Vec::new(alloc));
        let out = MemSink::new(Vec::new(alloc), vec![in alloc; call]?);
        let want = Want {
            number: 4,
            out: report,
            err: b"leafd: write fault\n",
        };
        check_with(&rt, alloc, &["drill"], input, out, &want)?;
    }
    Ok(())
}

#[test]
fn statuses_have_their_numbers(rt: HostRuntime) {
    let alloc = rt.alloc();
    let line = Status::ScriptFault {
        line: 1,
        kind: ScriptKind::BadLine,
    };
    let conf = Status::ConfFault {
        kind: ConfKind::NoFile,
        member: Bytes::new(alloc),
    };
    let bad = Status::BadJournal {
        name: Bytes::new(alloc),
        place: 0,
    };
    let long = Status::JournalTooLong {
        name: Bytes::new(alloc),
        len: 0,
    };
    let transform = Status::BadTransform {
        place: 0,
        kind: TransformKind::BadSource,
    };
    assert_eq!(rt; Status::Done.number(), 0);
    assert_eq!(rt; line.number(), 1);
    assert_eq!(rt; conf.number(), 1);
    assert_eq!(rt; Status::Usage.number(), 2);
    assert_eq!(rt; Status::ReadFault.number(), 3);
    assert_eq!(rt; Status::WriteFault.number(), 4);
    assert_eq!(rt; Status::DiskFault.number(), 5);
    assert_eq!(rt; Status::NoMemory.number(), 6);
    assert_eq!(rt; Status::ScriptTooLong.number(), 7);
    assert_eq!(rt; bad.number(), 8);
    assert_eq!(rt; long.number(), 12);
    assert_eq!(rt; transform.number(), 1);
    assert_eq!(rt; Status::NoMatch.number(), 9);
}
