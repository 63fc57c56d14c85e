use crate::told::told;
use std::alloc::{AllocError, Global};
use std::test::Fail;

/// A configuration with a list of so many items, each of which is a number between two texts.
fn counted(
    alloc: Global,
    (before, after): (&str, &str),
    (front, back): (&str, &str),
    count: u32,
) -> Result<String, AllocError> {
    let mut text = format!(in alloc; "{{\"name\":\"S\",{before}")?;
    for at in 0..count {
        let comma = if at == 0 { "" } else { "," };
        let item = format!(in alloc; "{comma}{front}{at}{back}")?;
        text.push_str(item.as_str())?;
    }
    text.push_str(after)?;
    text.push_str("}")?;
    Ok(text)
}

/// What stands around a list, what stands around each number in it, how many items it may have, and the member
/// that is wrong where there is one more.
const LISTS: [((&str, &str), (&str, &str), u32, &str); 3] = [
    ((r#""subjects":["#, "]"), (r#""s"#, r#"""#), 64, "subjects"),
    (
        (r#""sources":["#, "]"),
        (r#"{"name":"s"#, r#""}"#),
        32,
        "sources",
    ),
    (
        (r#""sources":[{"name":"P","subject_transforms":["#, "]}]"),
        (r#"{"src":"s"#, r#"","dest":"d"}"#),
        16,
        "subject_transforms",
    ),
];

#[test]
fn lists_have_a_most(rt: HostRuntime) -> Result<(), Fail> {
    for (around, item, most, name) in LISTS.iter() {
        let alloc = rt.alloc();
        let text = counted(alloc, *around, *item, *most)?;
        let longer = counted(alloc, *around, *item, *most + 1)?;
        let want = format!(in alloc; "bad {name}")?;
        assert!(rt;
            told(alloc, text.as_bytes())?.starts_with(b"{\"discard\""),
            "{text}"
        );
        assert!(rt;
            told(alloc, longer.as_bytes())?.as_slice() == want.as_bytes(),
            "{longer}"
        );
    }
    Ok(())
}

/// A configuration with a text of so many letters.
fn lettered(
    alloc: Global,
    (before, after): (&str, &str),
    count: u32,
) -> Result<String, AllocError> {
    let mut text = format!(in alloc; "{{\"name\":\"S\",{before}")?;
    for _ in 0..count {
        text.push_str("a")?;
    }
    text.push_str(after)?;
    text.push_str("}")?;
    Ok(text)
}

/// What stands around the letters, of which there may be 1,024, and the member that is wrong where there is
/// one more.
const TEXTS: [((&str, &str), &str); 4] = [
    (
        (r#""subject_transform":{"src":""#, r#"","dest":"b"}"#),
        "subject_transform",
    ),
    (
        (r#""subject_transform":{"src":"b","dest":""#, r#""}"#),
        "subject_transform",
    ),
    (
        (
            r#""sources":[{"name":"P","subject_transforms":[{"src":""#,
            r#"","dest":"b"}]}]"#,
        ),
        "subject_transforms",
    ),
    (
        (
            r#""sources":[{"name":"P","subject_transforms":[{"src":"b","dest":""#,
            r#""}]}]"#,
        ),
        "subject_transforms",
    ),
];

#[test]
fn texts_have_a_longest(rt: HostRuntime) -> Result<(), Fail> {
    for (around, name) in TEXTS.iter() {
        let alloc = rt.alloc();
        let text = lettered(alloc, *around, 1_024)?;
        let longer = lettered(alloc, *around, 1_025)?;
        let want = format!(in alloc; "bad {name}")?;
        assert!(rt;
            told(alloc, text.as_bytes())?.starts_with(b"{\"discard\""),
            "{text}"
        );
        assert!(rt;
            told(alloc, longer.as_bytes())?.as_slice() == want.as_bytes(),
            "{longer}"
        );
    }
    Ok(())
}
