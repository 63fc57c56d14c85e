use leafd_words::{MapWords, Words, WordsFault, read_words};
use std::alloc::{AllocError, Global};
use std::test::Fail;

/// Whether words are read so.
fn are_read(
    alloc: Global,
    words: &[&str],
    want: Result<Words<'_>, WordsFault>,
) -> Result<bool, AllocError> {
    let mut texts = Vec::new(alloc);
    for word in words {
        texts.push(String::from_str(alloc, word)?)?;
    }
    Ok(read_words(alloc, &texts) == want)
}

#[test]
fn words_that_are_a_command(rt: HostRuntime) -> Result<(), Fail> {
    let rows: [(&[&str], Words<'static>); 12] = [
        (&["drill"], Words::Drill),
        (&["check", "hub.toml"], Words::Check { conf: b"hub.toml" }),
        (&["check", ""], Words::Check { conf: b"" }),
        (&["check", "-"], Words::Check { conf: b"-" }),
        (&["check", "--", "-x"], Words::Check { conf: b"-x" }),
        (&["check", "--", "--"], Words::Check { conf: b"--" }),
        (&["check", "--", "a"], Words::Check { conf: b"a" }),
        (&["inspect", "/s"], Words::Inspect { dir: b"/s" }),
        (&["inspect", "drill"], Words::Inspect { dir: b"drill" }),
        (
            &["map", "a.*", "b.$1", "a.x"],
            Words::Map {
                texts: MapWords {
                    src: b"a.*",
                    dest: b"b.$1",
                    subject: b"a.x",
                },
            },
        ),
        (
            &["map", "", "", ""],
            Words::Map {
                texts: MapWords {
                    src: b"",
                    dest: b"",
                    subject: b"",
                },
            },
        ),
        (
            &["map", "--", "-a", "--b", "-c"],
            Words::Map {
                texts: MapWords {
                    src: b"-a",
                    dest: b"--b",
                    subject: b"-c",
                },
            },
        ),
    ];
    for (words, want) in rows {
        assert!(rt; are_read(rt.alloc(), words, Ok(want))?, "{words:?}");
    }
    Ok(())
}

#[test]
fn words_that_are_none(rt: HostRuntime) -> Result<(), Fail> {
    let rows: [&[&str]; 30] = [
        &[],
        &[""],
        &["DRILL"],
        &["Drill"],
        &["dril"],
        &["drills"],
        &["drill", "x"],
        &["drill", "drill"],
        &["drill", "--help"],
        &["help"],
        &["help", "drill"],
        &["--help"],
        &["-h"],
        &["--version"],
        &["-V"],
        &["--", "drill"],
        &["check"],
        &["check", "--"],
        &["check", "a", "b"],
        &["check", "-x"],
        &["check", "--conf=a"],
        &["inspect"],
        &["inspect", "a", "b"],
        &["map", "a", "b"],
        &["map", "a", "b", "-c"],
        &["map", "a", "b", "c", "d"],
        &["serve", "hub.toml"],
        &["make", "1", "2"],
        &["trial", "1", "2"],
        &["leafd", "drill"],
    ];
    for words in rows {
        assert!(rt;
            are_read(rt.alloc(), words, Err(WordsFault::Usage))?,
            "{words:?}"
        );
    }
    Ok(())
}
