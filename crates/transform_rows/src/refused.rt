use std::alloc::Global;
use std::test::Fail;
use subject_transform::TransformKind::{
    BadDest, BadFunction, BadIndex, BadNumber, BadSource, TailMismatch,
};
use subject_transform::{Transform, TransformFault, TransformKind};

/// Source, destination, and the first fault with its place.
const ROWS: [(&str, &str, u64, TransformKind); 44] = [
    ("foo..*", "x", 4, BadSource),
    ("foo.", "x", 4, BadSource),
    ("a.>.b", "*", 3, BadSource),
    ("", "", 0, BadSource),
    ("a", "", 0, BadDest),
    ("a", " \t", 0, BadDest),
    ("a", "b..c", 2, BadDest),
    ("a", "b.", 2, BadDest),
    ("a", ".b", 0, BadDest),
    ("a.*", "b.*", 2, BadDest),
    ("a.>", ">.b", 0, BadDest),
    ("a.*", "b c.d.*", 5, BadDest),
    ("a.*", "{{wildcard()}}", 0, BadFunction),
    ("a.*", "{{wildcard}}", 0, BadFunction),
    ("a.*", "{{wildcard(1}}", 0, BadFunction),
    ("a.*", "{{wildcard(1)x}}", 0, BadFunction),
    ("a.*", "{{wildcard(1,1)}}", 0, BadFunction),
    ("a.*", "{{nothing(1)}}", 0, BadFunction),
    ("a.*", "{{}}", 0, BadFunction),
    ("a.*", "{{(1)}}", 0, BadFunction),
    ("a.*", "b.{{partition(10)}}", 2, BadFunction),
    ("a.*", "{{split(1)}}", 0, BadFunction),
    ("a.*", "{{split(1,)}}", 0, BadFunction),
    ("a.*", "{{split(1,()}}", 0, BadFunction),
    ("a.*", "{{split(x,\u{1})}}", 0, BadFunction),
    ("a.*", "{{split(1,a,b)}}", 0, BadFunction),
    ("a.*", "{{slicefromleft(1)}}", 0, BadFunction),
    ("a.*", "{{partition(0,1)}}", 0, BadNumber),
    ("a.*", "{{partition(4294967296,1)}}", 0, BadNumber),
    ("a.*", "{{partition(10,)}}", 0, BadNumber),
    ("a.*", "{{partition(10,9,x)}}", 0, BadNumber),
    ("a.*", "{{wildcard(x)}}", 0, BadNumber),
    ("a.*", "{{wildcard(12345678901)}}", 0, BadNumber),
    ("a.*", "$12345678901", 0, BadNumber),
    ("a.*", "{{slicefromleft(9,0)}}", 0, BadNumber),
    ("a.*", "{{splitfromleft(9,)}}", 0, BadNumber),
    ("foo.*", "bar.{{wildcard(2)}}", 4, BadIndex),
    ("foo.*", "$0", 0, BadIndex),
    ("foo.*", "b.$2.*", 2, BadIndex),
    ("foo.*", "{{partition(10,1,2)}}", 0, BadIndex),
    ("a.>", "$1", 0, BadIndex),
    ("a.>", "b", 0, TailMismatch),
    ("a.>", "b.c", 2, TailMismatch),
    ("a", "b.>", 2, TailMismatch),
];

/// Whether the first fault of two texts is this.
fn is_fault(alloc: Global, src: &[u8], dest: &[u8], place: u64, kind: TransformKind) -> bool {
    match Transform::read(alloc, src, dest) {
        Ok(_) => false,
        Err(fault) => fault == TransformFault::Bad { place, kind },
    }
}

#[test]
fn the_first_fault_is_told_with_its_place(rt: HostRuntime) -> Result<(), Fail> {
    for (src, dest, place, kind) in ROWS.iter() {
        assert!(rt;
            is_fault(rt.alloc(), src.as_bytes(), dest.as_bytes(), *place, *kind),
            "{src} {dest}"
        );
    }
    Ok(())
}

// A token that isn't UTF-8.
#[test]
fn a_destination_is_utf8(rt: HostRuntime) -> Result<(), Fail> {
    assert!(rt; is_fault(rt.alloc(), b"a", b"b.\xff.*", 2, BadDest));
    Ok(())
}

// A fault is told as its kind and its place.
#[test]
fn a_fault_has_a_line(rt: HostRuntime) -> Result<(), Fail> {
    let fault = TransformFault::Bad {
        place: 4,
        kind: BadIndex,
    };
    let line = format!(in rt.alloc(); "{fault}")?;
    assert_eq!(rt; line.as_str(), "BadIndex at 4");
    Ok(())
}
