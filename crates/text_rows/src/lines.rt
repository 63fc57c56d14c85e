//! The lines of a script that are forms, those that say nothing, and the kinds of all others.
use crate::table::fields;
use leafd_script::{Changes, Line, LineFault, read_line};
use nats_text::{Headers, number, pieces};
use std::alloc::Global;
use std::test::Fail;
use stream_fold::Discard;

/// Each row is a line, and what it says: its form, node, name, subject or pattern, text, and number.
const FORMS: &[u8] = b"\
    node hub|node|hub||||-\n\
    pub hub S a.b one  two \t|pub|hub|S|a.b|one  two \t|-\n\
    pub hub S a.b|pub|hub|S|a.b||-\n\
    pub hub S a.b |pub|hub|S|a.b||-\n\
    pub hub S a.b \xff\r|pub|hub|S|a.b|\xff\r|-\n\
    pub M API transform=1 start=3|pub|M|API|transform=1|start=3|-\n\
    del hub S 7|del|hub|S|||7\n\
    del hub S 9223372036854775807|del|hub|S|||9223372036854775807\n\
    purge hub S|purge|hub|S|||-\n\
    purge hub S a.*|purge|hub|S|a.*||-\n\
    purge hub S > 12|purge|hub|S|>||12\n\
    expire hub S|expire|hub|S|||-\n\
    clock 0000000001000000000|clock|||||1000000000\n\
    settle|settle|||||-\n\
    show leaf1 M|show|leaf1|M|||-\n\
    log hub S|log|hub|S|||-\n\
    heads|heads|||||-\n\
    quiet|quiet|||||-";

#[test]
fn each_form_is_read(rt: HostRuntime) -> Result<(), Fail> {
    for row in &pieces(rt.alloc(), FORMS, b'\n')? {
        assert!(rt; is_form(rt.alloc(), row), "{row:?}");
    }
    Ok(())
}

/// Whether the line of a row is read as the row says.
fn is_form(alloc: Global, row: &[u8]) -> bool {
    let (line, want) = fields(row, b'|');
    match read_line(alloc, line) {
        Ok(Some(found)) => {
            let is_it = has_texts(&found, want);
            drop(found);
            is_it
        }
        _ => false,
    }
}

/// Whether a line has these texts and, behind them, this number.
fn has_texts(line: &Line, want: &[u8]) -> bool {
    let mut rest = want;
    for text in texts(line) {
        let (wanted, after) = fields(rest, b'|');
        if text != wanted {
            return false;
        }
        rest = after;
    }
    number_in(line) == number(rest)
}

/// The form of a line, its node, its name, its subject or pattern, and its text.
fn texts(line: &Line) -> [&[u8]; 5] {
    match line {
        Line::Node { node } => [b"node", node.bytes(), b"", b"", b""],
        Line::Publish {
            node,
            name,
            subject,
            text,
        } => [
            b"pub",
            node.bytes(),
            name.bytes(),
            subject.bytes(),
            text.as_slice(),
        ],
        Line::Delete { node, name, .. } => [b"del", node.bytes(), name.bytes(), b"", b""],
        Line::Purge {
            node,
            name,
            pattern,
            ..
        } => {
            let pattern = match pattern {
                Some(pattern) => pattern.bytes(),
                None => b"",
            };
            [b"purge", node.bytes(), name.bytes(), pattern, b""]
        }
        Line::Expire { node, name } => [b"expire", node.bytes(), name.bytes(), b"", b""],
        Line::Clock { .. } => [b"clock", b"", b"", b"", b""],
        Line::Settle => [b"settle", b"", b"", b"", b""],
        Line::Show { node, name } => [b"show", node.bytes(), name.bytes(), b"", b""],
        Line::Log { node, name } => [b"log", node.bytes(), name.bytes(), b"", b""],
        Line::Heads => [b"heads", b"", b"", b"", b""],
        Line::Quiet => [b"quiet", b"", b"", b"", b""],
        _ => [b"another form", b"", b"", b"", b""],
    }
}

/// The number that a line names.
fn number_in(line: &Line) -> Option<u64> {
    match line {
        Line::Delete { seq, .. } => Some(*seq),
        Line::Purge { below, .. } => *below,
        Line::Clock { moment } => Some(*moment),
        _ => None,
    }
}

/// Each row is a line, the block that its headers make, and its text.
const WITH_HEADERS: &[u8] = b"\
    hpub hub S a.b K:v|NATS/1.0\r\nK: v\r\n\r\n|#\
    hpub hub S a.b K:v;Nats-Msg-Id:1:2;K: x y|NATS/1.0\r\nK: v\r\nNats-Msg-Id: 1:2\r\nK: \r\n\r\n|x y#\
    hpub hub S a.b K:  two  |NATS/1.0\r\nK: \r\n\r\n| two  ";

#[test]
fn headers_of_a_publish_are_read(rt: HostRuntime) -> Result<(), Fail> {
    for row in &pieces(rt.alloc(), WITH_HEADERS, b'#')? {
        assert!(rt; is_publish(rt.alloc(), row), "{row:?}");
    }
    Ok(())
}

fn is_publish(alloc: Global, row: &[u8]) -> bool {
    let (line, want) = fields(row, b'|');
    match read_line(alloc, line) {
        Ok(Some(found)) => {
            let is_it = has_headers(alloc, &found, want);
            drop(found);
            is_it
        }
        _ => false,
    }
}

fn has_headers(alloc: Global, line: &Line, want: &[u8]) -> bool {
    let (block, wanted) = fields(want, b'|');
    match line {
        Line::PublishWithHeaders {
            subject,
            headers,
            text,
            ..
        } => {
            subject.bytes() == b"a.b".as_slice()
                && text.as_slice() == wanted
                && are_written(alloc, headers, block)
        }
        _ => false,
    }
}

fn are_written(alloc: Global, headers: &Headers, block: &[u8]) -> bool {
    let mut written = Vec::new(alloc);
    headers.write(&mut written).is_ok() && written.as_slice() == block
}

#[test]
fn empty_lines_and_comments_say_nothing(rt: HostRuntime) {
    let rows: [&[u8]; 4] = [b"", b"#", b"# node hub", b"#sources"];
    for line in rows {
        let silent = matches!(read_line(rt.alloc(), line), Ok(None));
        assert!(rt; silent, "{line:?} says nothing");
    }
}

const NONE: Changes = Changes {
    max_msgs: None,
    max_bytes: None,
    max_age: None,
    max_per_subject: None,
    max_msg_size: None,
    discard: None,
};

const EVERY: &[u8] =
    b"update hub S discard=new max_msg_size=5 max_per_subject=4 max_age=3 max_bytes=2 max_msgs=1";

#[test]
fn each_change_is_read(rt: HostRuntime) {
    let all = Changes {
        max_msgs: Some(1),
        max_bytes: Some(2),
        max_age: Some(3),
        max_per_subject: Some(4),
        max_msg_size: Some(5),
        discard: Some(Discard::New),
    };
    let cleared = Changes {
        max_age: Some(0),
        discard: Some(Discard::Old),
        ..NONE
    };
    assert!(rt; is_update(rt.alloc(), b"update hub S", NONE));
    assert!(rt; is_update(rt.alloc(), EVERY, all));
    assert!(rt; is_update(rt.alloc(), b"update hub S max_age=0 discard=old", cleared));
}

fn is_update(alloc: Global, line: &[u8], want: Changes) -> bool {
    match read_line(alloc, line) {
        Ok(Some(found)) => {
            let changes = changes_in(&found);
            drop(found);
            changes == Some(want)
        }
        _ => false,
    }
}

/// The changes that a line makes to `S` on `hub`.
fn changes_in(line: &Line) -> Option<Changes> {
    match line {
        Line::Update {
            node,
            name,
            changes,
        } => {
            let is_it = node.bytes() == b"hub".as_slice() && name.bytes() == b"S".as_slice();
            if is_it { Some(*changes) } else { None }
        }
        _ => None,
    }
}

/// Each row is a kind and a line of that kind. Each word of the last six is right alone.
const KINDS: &[u8] = b"\
    NotYet|sources hub S from=leaf1/T\n\
    NotYet|remove  hub S \n\
    NotYet|carry\n\
    NotYet|lose\n\
    NotYet|repeat\n\
    NotYet|reverse\n\
    NotYet|drop\n\
    NotYet|cut\n\
    NotYet|join\n\
    NotYet|crash\n\
    NotYet|crashat\n\
    NotYet|stream hub S bogus=1 transform=a=>b\n\
    NotYet|stream . S max_msgs=x  filter=\n\
    NotYet|update hub S start=1\n\
    NotYet|mirror leaf1 S hub T start=3\n\
    NotYet|mirror leaf1 S hub T map=a=>b\n\
    NotYet|mirror leaf1 S hub T from=hub/T\n\
    NotYet|mirror hub S hub T bogus\n\
    BadLine|nodes hub\n\
    BadLine| node hub\n\
    BadLine|node\n\
    BadLine|node hub \n\
    BadLine|node hub leaf1\n\
    BadLine|settle\r\n\
    BadLine|settle now\n\
    BadLine|heads \n\
    BadLine|quiet quiet\n\
    BadLine|pub hub S\n\
    BadLine|pub hub  S text\n\
    BadLine|hpub hub S a.b\n\
    BadLine|hpub hub S a.b \n\
    BadLine|hpub . S a.b K\n\
    BadLine|hpub hub S a.b K:v;\n\
    BadLine|hpub hub S a.b :v\n\
    BadLine|hpub hub S a.b K:v\r\n\
    BadLine|del hub S\n\
    BadLine|purge hub\n\
    BadLine|purge hub S a.b 1 2\n\
    BadLine|purge . S  \n\
    BadLine|clock\n\
    BadLine|expire hub\n\
    BadLine|show hub S T\n\
    BadLine|log hub\n\
    BadLine|stream hub\n\
    BadLine|stream hub \n\
    BadLine|stream . S bogus=1\n\
    BadLine|stream hub S max_msgs\n\
    BadLine|stream hub S max_msgs=1 \n\
    BadLine|stream hub S max_msgs=1 window=1 max_msgs=2\n\
    BadLine|mirror leaf1 S hub\n\
    BadLine|mirror hub S hub\n\
    BadLine|mirror leaf1 S hub T subjects=a\n\
    BadLine|update hub S subjects=a\n\
    BadLine|update hub S window=1\n\
    BadName|node API\n\
    BadName|node M\n\
    BadName|node FC\n\
    BadName|node a.b\n\
    BadName|stream hub a.b max_msgs=x\n\
    BadName|mirror leaf1 S hub a.b discard=x\n\
    BadName|update hub * max_msgs=x\n\
    BadName|pub a.b S *\n\
    BadName|del hub * x\n\
    BadSubject|pub hub S a.* text\n\
    BadSubject|hpub hub S a..b K:v text\n\
    BadSubject|purge hub S a..b x\n\
    BadNumber|purge hub S a.b x\n\
    BadNumber|del hub S 9223372036854775808\n\
    BadNumber|del hub S +1\n\
    BadNumber|clock 00000000000000000001\n\
    BadOption|stream hub S max_msgs=\n\
    BadOption|stream hub S discard=both\n\
    BadOption|stream hub S subjects=a,,b\n\
    BadOption|stream hub S subjects=\n\
    BadOption|mirror leaf1 S hub T window=x\n\
    BadOption|update hub S max_age=9223372036854775808\n\
    BadOption|stream hub S subjects=$JS.a\n\
    BadOption|stream hub S subjects=>\n\
    BadOption|stream hub S subjects=a.*,a.b\n\
    BadOption|stream hub S max_age=5 window=6\n\
    BadOption|mirror leaf1 S hub T discard=new\n\
    BadOption|mirror leaf1 S hub T max_msg_size=5";

#[test]
fn each_kind_has_its_lines(rt: HostRuntime) -> Result<(), Fail> {
    for row in &pieces(rt.alloc(), KINDS, b'\n')? {
        let (want, line) = fields(row, b'|');
        assert!(rt; kind_of(rt.alloc(), line).as_bytes() == want, "{line:?}");
    }
    Ok(())
}

/// The word of the kind of a line that isn't legal.
fn kind_of(alloc: Global, line: &[u8]) -> &'static str {
    match read_line(alloc, line) {
        Err(LineFault::Bad { kind }) => kind.word(),
        _ => "",
    }
}
