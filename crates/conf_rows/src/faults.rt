use leafd_conf::{ConfKind, ConfProblem, read_conf};
use std::alloc::Global;
use std::test::Fail;

/// A file, the kind of its first fault, and the member at fault.
const FAULTS: [(&str, ConfKind, &str); 18] = [
    ("name", ConfKind::Syntax, ""),
    (
        "name = 'hub'\nstore = '/s'\nlisten = 'a:1'\nleaf_listen = 'a:2'\nname = 'b'",
        ConfKind::Syntax,
        "",
    ),
    (
        "name = 'hub'\nstore = '/s'\nlisten = 'a:1'\nleaf_listen = 'a:2'\nhub = 'a",
        ConfKind::Syntax,
        "",
    ),
    // No TOML counts before another member.
    ("a = 1\nname", ConfKind::Syntax, ""),
    // Another member comes before all that is missing or bad, the first in the order of bytes.
    ("a = 1", ConfKind::Unknown, "a"),
    (
        "name = 'hub'\nstore = '/s'\nlisten = 'a:1'\nleaf_listen = 'a:2'\nzebra = 1\nZoo = 2\nyak = 3",
        ConfKind::Unknown,
        "Zoo",
    ),
    (
        "name = 'hub'\nstore = '/s'\nlisten = 'a:1'\nleaf_listen = 'a:2'\nName = 'hub'",
        ConfKind::Unknown,
        "Name",
    ),
    (
        "name = 1\nstore = '/s'\nlisten = 'a:1'\nleaf_listen = 'a:2'\n[logs]\nlevel = 1",
        ConfKind::Unknown,
        "logs",
    ),
    ("", ConfKind::Missing, "name"),
    (
        "store = '/s'\nlisten = 'a:1'\nleaf_listen = 'a:2'\n",
        ConfKind::Missing,
        "name",
    ),
    (
        "name = 'hub'\nlisten = 'a:1'\nleaf_listen = 'a:2'\n",
        ConfKind::Missing,
        "store",
    ),
    (
        "name = 'hub'\nstore = '/s'\nleaf_listen = 'a:2'\n",
        ConfKind::Missing,
        "listen",
    ),
    // The members are looked at in their order, each whether it is there and what it is.
    (
        "store = 1\nlisten = 'a:1'\nleaf_listen = 'a:2'\n",
        ConfKind::Missing,
        "name",
    ),
    (
        "name = 1\nlisten = 'a:1'\nleaf_listen = 'a:2'\n",
        ConfKind::BadValue,
        "name",
    ),
    (
        "name = 'hub'\nlisten = 1\nleaf_listen = 'a:2'\n",
        ConfKind::Missing,
        "store",
    ),
    (
        "name = 'hub'\nstore = '/s'\nlisten = 1\nhub = 1\nmappings = 1",
        ConfKind::BadValue,
        "listen",
    ),
    (
        "name = 'hub'\nstore = '/s'\nlisten = 'a:1'\nhub = 1\nleaf_listen = 1",
        ConfKind::BadValue,
        "leaf_listen",
    ),
    (
        "name = 'hub'\nstore = '/s'\nlisten = 'a:1'\nmappings = 1",
        ConfKind::BadValue,
        "mappings",
    ),
];

/// A file, and the first member that has a bad value.
const BAD_VALUES: [(&str, &str); 28] = [
    (
        "name = 'API'\nstore = '/s'\nlisten = 'a:1'\nleaf_listen = 'a:2'\n",
        "name",
    ),
    (
        "name = 'M'\nstore = '/s'\nlisten = 'a:1'\nleaf_listen = 'a:2'\n",
        "name",
    ),
    (
        "name = 'FC'\nstore = '/s'\nlisten = 'a:1'\nleaf_listen = 'a:2'\n",
        "name",
    ),
    (
        "name = 'a.b'\nstore = '/s'\nlisten = 'a:1'\nleaf_listen = 'a:2'\n",
        "name",
    ),
    (
        "name = ''\nstore = '/s'\nlisten = 'a:1'\nleaf_listen = 'a:2'\n",
        "name",
    ),
    (
        "name = ['hub']\nstore = '/s'\nlisten = 'a:1'\nleaf_listen = 'a:2'\n",
        "name",
    ),
    (
        "name = 'hub'\nstore = true\nlisten = 'a:1'\nleaf_listen = 'a:2'\n",
        "store",
    ),
    (
        "name = 'hub'\nstore = '/s'\nlisten = 4222\nleaf_listen = 'a:2'\n",
        "listen",
    ),
    (
        "name = 'hub'\nstore = '/s'\nlisten = ''\nleaf_listen = 'a:2'\n",
        "listen",
    ),
    (
        "name = 'hub'\nstore = '/s'\nlisten = ':4222'\nleaf_listen = 'a:2'\n",
        "listen",
    ),
    (
        "name = 'hub'\nstore = '/s'\nlisten = '4222'\nleaf_listen = 'a:2'\n",
        "listen",
    ),
    (
        "name = 'hub'\nstore = '/s'\nlisten = 'a:'\nleaf_listen = 'a:2'\n",
        "listen",
    ),
    (
        "name = 'hub'\nstore = '/s'\nlisten = 'a:65536'\nleaf_listen = 'a:2'\n",
        "listen",
    ),
    (
        "name = 'hub'\nstore = '/s'\nlisten = 'a:+1'\nleaf_listen = 'a:2'\n",
        "listen",
    ),
    (
        "name = 'hub'\nstore = '/s'\nlisten = 'a:1 '\nleaf_listen = 'a:2'\n",
        "listen",
    ),
    (
        "name = 'hub'\nstore = '/s'\nlisten = 'a:1'\nleaf_listen = 7422\n",
        "leaf_listen",
    ),
    (
        "name = 'hub'\nstore = '/s'\nlisten = 'a:1'\nhub = 7422\n",
        "hub",
    ),
    ("name = 'hub'\nstore = '/s'\nlisten = 'a:1'\n", "hub"),
    (
        "name = 'hub'\nstore = '/s'\nlisten = 'a:1'\nleaf_listen = 'a:2'\nhub = 'a:1'",
        "hub",
    ),
    (
        "name = 'hub'\nstore = '/s'\nlisten = 'a:1'\nleaf_listen = 'a:2'\nmappings = 'a'",
        "mappings",
    ),
    (
        "name = 'hub'\nstore = '/s'\nlisten = 'a:1'\nleaf_listen = 'a:2'\nmappings = ['a']",
        "mappings",
    ),
    (
        "name = 'hub'\nstore = '/s'\nlisten = 'a:1'\nleaf_listen = 'a:2'\nmappings = { src = 'a', dest = 'b' }",
        "mappings",
    ),
    (
        "name = 'hub'\nstore = '/s'\nlisten = 'a:1'\nleaf_listen = 'a:2'\nmappings = [{ src = 'a' }]",
        "mappings",
    ),
    (
        "name = 'hub'\nstore = '/s'\nlisten = 'a:1'\nleaf_listen = 'a:2'\nmappings = [{ dest = 'a' }]",
        "mappings",
    ),
    (
        "name = 'hub'\nstore = '/s'\nlisten = 'a:1'\nleaf_listen = 'a:2'\nmappings = [{ src = 'a', dest = 1 }]",
        "mappings",
    ),
    (
        "name = 'hub'\nstore = '/s'\nlisten = 'a:1'\nleaf_listen = 'a:2'\nmappings = [{ src = 'a', dest = 'b', note = 'c' }]",
        "mappings",
    ),
    (
        "name = 'hub'\nstore = '/s'\nlisten = 'a:1'\nleaf_listen = 'a:2'\nmappings = [{ src = 'a', dest = '$1' }]",
        "mappings",
    ),
    (
        "name = 'hub'\nstore = '/s'\nlisten = 'a:1'\nleaf_listen = 'a:2'\nmappings = [{ src = 'a', dest = 'b' }, { src = 'a', dest = '' }]",
        "mappings",
    ),
];

/// Whether the first fault of a text is this.
fn is_fault(alloc: Global, text: &[u8], kind: ConfKind, member: &str) -> bool {
    match read_conf(alloc, text) {
        Ok(_conf) => false,
        Err(
            ConfProblem::Bad {
                kind: told,
                member: named,
            },
        ) => told == kind && named.as_slice() == member.as_bytes(),
        Err(ConfProblem::NoMemory) => false,
    }
}

#[test]
fn the_first_fault_is_told(rt: HostRuntime) -> Result<(), Fail> {
    for (text, kind, member) in FAULTS.iter() {
        assert!(rt;
            is_fault(rt.alloc(), text.as_bytes(), *kind, member),
            "{text}"
        );
    }
    Ok(())
}

#[test]
fn a_bad_value_is_told(rt: HostRuntime) -> Result<(), Fail> {
    for (text, member) in BAD_VALUES.iter() {
        assert!(rt;
            is_fault(rt.alloc(), text.as_bytes(), ConfKind::BadValue, member),
            "{text}"
        );
    }
    Ok(())
}

#[test]
fn bytes_that_are_no_text(rt: HostRuntime) {
    let text = b"name = \"\xff\"";
    assert!(rt; is_fault(rt.alloc(), text, ConfKind::Syntax, ""));
}
