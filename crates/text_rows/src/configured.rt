//! The configurations that lines of a script give.
use crate::table::fields;
use leafd_script::{Line, read_line};
use nats_text::{number, pieces};
use std::alloc::Global;
use std::test::Fail;
use stream_fold::{Config, Copies, Discard};

/// Each row is a line, the node, the subjects with commas between them, what goes where the stream is
/// full, the stream on the hub that is copied, and the limits in their order with the window last.
const CONFIGURATIONS: &[u8] = b"\
    stream hub S|hub|S|old||0 0 0 0 0 120000000000\n\
    stream hub S subjects=a.*,b.>|hub|a.*,b.>|old||0 0 0 0 0 120000000000\n\
    stream hub S max_msgs=1 max_bytes=2 max_age=120000000001 max_per_subject=4 max_msg_size=5 discard=new|hub|S|new||1 2 120000000001 4 5 120000000000\n\
    stream hub S max_age=3 discard=old|hub|S|old||0 0 3 0 0 3\n\
    stream hub S window=0 max_age=7|hub|S|old||0 0 7 0 0 7\n\
    stream hub S window=8|hub|S|old||0 0 0 0 0 8\n\
    mirror leaf1 S hub T|leaf1||old|T|0 0 0 0 0 120000000000\n\
    mirror leaf1 S hub T max_msgs=9 window=4|leaf1||old|T|9 0 0 0 0 4";

#[test]
fn each_configuration_is_read(rt: HostRuntime) -> Result<(), Fail> {
    for row in &pieces(rt.alloc(), CONFIGURATIONS, b'\n')? {
        assert!(rt; is_read(rt.alloc(), row), "{row:?}");
    }
    Ok(())
}

/// Whether the line of a row is read as the row says.
fn is_read(alloc: Global, row: &[u8]) -> bool {
    let (line, want) = fields(row, b'|');
    match read_line(alloc, line) {
        Ok(Some(found)) => {
            let is_it = says(&found, want);
            drop(found);
            is_it
        }
        _ => false,
    }
}

fn says(line: &Line, want: &[u8]) -> bool {
    let (wanted, want) = fields(want, b'|');
    match line {
        Line::Stream { node, config } => node.bytes() == wanted && is_config(config, want),
        Line::Mirror { node, config } => node.bytes() == wanted && is_config(config, want),
        _ => false,
    }
}

fn is_config(config: &Config, want: &[u8]) -> bool {
    let (subjects, want) = fields(want, b'|');
    let (discard, want) = fields(want, b'|');
    let (origin, numbers) = fields(want, b'|');
    let is_new = discard == b"new".as_slice();
    config.name.bytes() == b"S".as_slice()
        && has_subjects(config, subjects)
        && (config.discard == Discard::New) == is_new
        && origin_in(&config.copies) == origin
        && has_limits(config, numbers)
}

/// Whether these are the subjects, with commas between them.
fn has_subjects(config: &Config, want: &[u8]) -> bool {
    let mut rest = want;
    for subject in config.subjects.as_slice() {
        let (wanted, after) = fields(rest, b',');
        if subject.bytes() != wanted {
            return false;
        }
        rest = after;
    }
    rest.is_empty()
}

/// Whether these are the limits in their order and the window, with blanks between them.
fn has_limits(config: &Config, want: &[u8]) -> bool {
    let mut rest = want;
    for value in [
        config.max_msgs,
        config.max_bytes,
        config.max_age,
        config.max_per_subject,
        config.max_msg_size,
        config.window,
    ] {
        let (digits, after) = fields(rest, b' ');
        if number(digits) != Some(value) {
            return false;
        }
        rest = after;
    }
    rest.is_empty()
}

/// The stream that a mirror copies, of the node `hub`.
fn origin_in(copies: &Copies) -> &[u8] {
    match copies {
        Copies::Mirror(origin) => match &origin.node {
            Some(node) if node.bytes() == b"hub".as_slice() => origin.stream.bytes(),
            _ => b"",
        },
        _ => b"",
    }
}
