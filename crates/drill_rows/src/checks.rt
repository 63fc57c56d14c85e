use crate::run::{Want, check_over};
use leaf_edges::{MemSink, MemSource};
use mem_disk::{MemFiles, NamedText};
use std::alloc::Global;
use std::process::Abort;
use std::test::Fail;

const HUB: &[u8] =
    b"name = \"hub\"\nstore = \"/s\"\nlisten = \"127.0.0.1:4222\"\nleaf_listen = \"127.0.0.1:7422\"\n";

/// Runs `leafd check` with this file over a store of the text `hub.toml` alone, whose calls with these numbers
/// fail.
fn check_with_files(
    rt: &impl Abort,
    alloc: Global,
    file: &str,
    text: Vec<u8>,
    failing: Vec<u64>,
    out: MemSink,
    want: &Want<'_>,
) -> Result<(), Fail> {
    let mut texts = Vec::new(alloc);
    texts.push(NamedText::new(b"hub.toml".to_vec(alloc)?, text))?;
    let files = MemFiles::new(alloc, Vec::new(alloc), texts, failing);
    let input = MemSource::new(Vec::new(alloc), Vec::new(alloc));
    check_over(rt, alloc, &["check", file], input, files, out, want)
}

/// Runs `leafd check` with this file where no call fails.
fn check_file(
    rt: &impl Abort,
    alloc: Global,
    file: &str,
    text: &[u8],
    want: &Want<'_>,
) -> Result<(), Fail> {
    let text = text.to_vec(alloc)?;
    let out = MemSink::new(Vec::new(alloc), Vec::new(alloc));
    check_with_files(rt, alloc, file, text, Vec::new(alloc), out, want)
}

#[test]
fn a_hub_and_a_leaf(rt: HostRuntime) -> Result<(), Fail> {
    let rows: [(&[u8], &[u8]); 2] = [
        (HUB, b"conf hub hub\n"),
        (
            b"name = 'leaf-1'\nstore = 's'\nlisten = 'a:1'\nhub = 'hub:7422'",
            b"conf leaf-1 leaf\n",
        ),
    ];
    for (text, out) in rows {
        let want = Want {
            number: 0,
            out,
            err: b"",
        };
        check_file(&rt, rt.alloc(), "hub.toml", text, &want)?;
    }
    Ok(())
}

#[test]
fn files_that_are_no_configuration(rt: HostRuntime) -> Result<(), Fail> {
    let rows: [(&[u8], &[u8]); 8] = [
        (
            b"store = \"/s\"\nlisten = \"127.0.0.1:4222\"\nleaf_listen = \"127.0.0.1:7422\"\n",
            b"leafd: conf: Missing name\n",
        ),
        (b"", b"leafd: conf: Missing name\n"),
        (b"name", b"leafd: conf: Syntax\n"),
        (b"name = '\xff'", b"leafd: conf: Syntax\n"),
        (
            b"zebra = 1\nZoo = 2\nyak = 3",
            b"leafd: conf: Unknown Zoo\n",
        ),
        (
            b"name = 'API'\nstore = 's'\nlisten = 'a:1'\nhub = 'h'",
            b"leafd: conf: BadValue name\n",
        ),
        (
            b"name = 'a'\nstore = 's'\nlisten = 'a:65536'\nhub = 'h'",
            b"leafd: conf: BadValue listen\n",
        ),
        (
            b"name = 'a'\nstore = 's'\nlisten = 'a:1'\nhub = 'h'\nleaf_listen = 'a:2'",
            b"leafd: conf: BadValue hub\n",
        ),
    ];
    for (text, err) in rows {
        let want = Want {
            number: 1,
            out: b"",
            err,
        };
        check_file(&rt, rt.alloc(), "hub.toml", text, &want)?;
    }
    Ok(())
}

#[test]
fn a_file_that_is_not_there(rt: HostRuntime) -> Result<(), Fail> {
    for file in ["leaf.toml", "", "hub.toml/"] {
        let want = Want {
            number: 1,
            out: b"",
            err: b"leafd: conf: NoFile\n",
        };
        check_file(&rt, rt.alloc(), file, HUB, &want)?;
    }
    Ok(())
}

/// Runs a check of this text, over files whose calls with these numbers fail, that has to end in a read fault.
fn check_unread(
    rt: &impl Abort,
    alloc: Global,
    text: Vec<u8>,
    failing: Vec<u64>,
) -> Result<(), Fail> {
    let out = MemSink::new(Vec::new(alloc), Vec::new(alloc));
    let want = Want {
        number: 3,
        out: b"",
        err: b"leafd: read fault\n",
    };
    check_with_files(rt, alloc, "hub.toml", text, failing, out, &want)
}

// A call that fails, and a text that is too long to be read.
#[test]
fn files_that_fail(rt: HostRuntime) -> Result<(), Fail> {
    let alloc = rt.alloc();
    check_unread(&rt, alloc, HUB.to_vec(alloc)?, vec![in alloc; 1]?)?;
    let long = vec![in alloc; b'\n'; 16_777_217]?;
    check_unread(&rt, alloc, long, Vec::new(alloc))
}

#[test]
fn a_check_into_an_output_that_fails(rt: HostRuntime) -> Result<(), Fail> {
    let alloc = rt.alloc();
    let text = HUB.to_vec(alloc)?;
    let out = MemSink::new(Vec::new(alloc), vec![in alloc; 1]?);
    let want = Want {
        number: 4,
        out: b"",
        err: b"leafd: write fault\n",
    };
    check_with_files(&rt, alloc, "hub.toml", text, Vec::new(alloc), out, &want)
}
