use crate::run::{Want, check_with};
use leaf_edges::{MemSink, MemSource};
use std::alloc::Global;
use std::process::Abort;
use std::test::Fail;

/// Runs `leafd map` with these words behind it, over an output whose calls with these numbers fail.
fn check_map(
    rt: &impl Abort,
    alloc: Global,
    [src, dest, subject]: [&str; 3],
    failing: Vec<u64>,
    want: &Want<'_>,
) -> Result<(), Fail> {
    let input = MemSource::new(b"node hub\n".to_vec(alloc)?, Vec::new(alloc));
    let out = MemSink::new(Vec::new(alloc), failing);
    check_with(rt, alloc, &["map", src, dest, subject], input, out, want)
}

#[test]
fn a_mapped_subject_is_printed(rt: HostRuntime) -> Result<(), Fail> {
    let rows: [([&str; 3], &[u8]); 6] = [
        (["foo.*", "bar.{{partition(10,1)}}", "foo.a"], b"bar.0\n"),
        (
            ["a.*", "{{slicefromleft(1,3)}}", "a.1234567890"],
            b"123.456.789.0\n",
        ),
        (
            [
                "orders.*.*",
                "orders.$2.{{slicefromleft(1,2)}}",
                "orders.2041.eu",
            ],
            b"orders.eu.20.41\n",
        ),
        (
            ["orders.*.>", " $1 . eu.>", "orders.new.a.b"],
            b"new.eu.a.b\n",
        ),
        (["a", "b", "a"], b"b\n"),
        ([">", ">", "\u{e9}.x"], b"\xc3\xa9.x\n"),
    ];
    for (words, out) in rows {
        let want = Want {
            number: 0,
            out,
            err: b"",
        };
        check_map(&rt, rt.alloc(), words, Vec::new(rt.alloc()), &want)?;
    }
    Ok(())
}

// Behind the word `--` a value may begin with `-`.
#[test]
fn words_that_begin_with_a_dash(rt: HostRuntime) -> Result<(), Fail> {
    let alloc = rt.alloc();
    let words = ["map", "--", "-a", "--b", "-a"];
    let input = MemSource::new(Vec::new(alloc), Vec::new(alloc));
    let out = MemSink::new(Vec::new(alloc), Vec::new(alloc));
    let want = Want {
        number: 0,
        out: b"--b\n",
        err: b"",
    };
    check_with(&rt, alloc, &words, input, out, &want)
}

#[test]
fn what_maps_to_no_subject(rt: HostRuntime) -> Result<(), Fail> {
    let rows = [
        ["foo.*", "bar.$1", "baz.a"],
        ["foo.*", "bar.$1", "foo.a.b"],
        // The result is no subject.
        ["a.*", "{{split(1,-)}}", "a.--"],
        // The last word is none.
        ["foo.*", "bar.$1", "a..b"],
        ["foo.*", "bar.$1", "foo.*"],
        [">", ">", ""],
    ];
    for words in rows {
        let want = Want {
            number: 9,
            out: b"",
            err: b"leafd: no match\n",
        };
        check_map(&rt, rt.alloc(), words, Vec::new(rt.alloc()), &want)?;
    }
    Ok(())
}

#[test]
fn two_texts_that_are_no_transform(rt: HostRuntime) -> Result<(), Fail> {
    let rows: [([&str; 3], &[u8]); 8] = [
        (
            ["foo.*", "bar.{{wildcard(2)}}", "foo.a"],
            b"leafd: transform: BadIndex at 4\n",
        ),
        (
            ["foo..*", "x", "foo.a"],
            b"leafd: transform: BadSource at 4\n",
        ),
        (["a", "b..c", "a"], b"leafd: transform: BadDest at 2\n"),
        (
            ["a.*", "b.{{partition(10)}}", "a.x"],
            b"leafd: transform: BadFunction at 2\n",
        ),
        (
            ["a.*", "{{slicefromleft(9,0)}}", "a.x"],
            b"leafd: transform: BadNumber at 0\n",
        ),
        (
            ["a.>", "b.c", "a.x"],
            b"leafd: transform: TailMismatch at 2\n",
        ),
        // It comes before what is wrong with the subject.
        (
            ["foo.*", "$2", "a..b"],
            b"leafd: transform: BadIndex at 0\n",
        ),
        (["", "", ""], b"leafd: transform: BadSource at 0\n"),
    ];
    for (words, err) in rows {
        let want = Want {
            number: 1,
            out: b"",
            err,
        };
        check_map(&rt, rt.alloc(), words, Vec::new(rt.alloc()), &want)?;
    }
    Ok(())
}

#[test]
fn a_mapping_into_an_output_that_fails(rt: HostRuntime) -> Result<(), Fail> {
    let alloc = rt.alloc();
    let want = Want {
        number: 4,
        out: b"",
        err: b"leafd: write fault\n",
    };
    check_map(&rt, alloc, ["a", "b", "a"], vec![in alloc; 1]?, &want)
}
