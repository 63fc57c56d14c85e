//! Reads a request of the JetStream API whose payload is long and hostile. The words are the kind of payload and
//! about how many bytes it has. It prints what the request is read as.
#![tactic(auto)]

use js_api::{ApiCall, ApiFault, read_request};
use nats_text::{Subject, TextFault};
use std::alloc::{AllocError, Global};
use std::env;
use std::process::ExitCode;

const SUBJECT: &[u8] = b"$JS.API.STREAM.CREATE.S";

/// A kind of payload: what stands first, what stands before and behind each number, and what stands last.
struct Kind {
    name: &'static str,
    first: &'static str,
    front: &'static str,
    back: &'static str,
    last: &'static str,
}

const KINDS: [Kind; 8] = [
    Kind {
        name: "members",
        first: r#"{"name":"S""#,
        front: r#","m"#,
        back: r#"":0"#,
        last: "}",
    },
    Kind {
        name: "repeats",
        first: r#"{"name":"S""#,
        front: r#","max_msgs":"#,
        back: "",
        last: "}",
    },
    Kind {
        name: "subjects",
        first: r#"{"name":"S","subjects":["a""#,
        front: r#","s"#,
        back: r#"""#,
        last: "]}",
    },
    Kind {
        name: "sources",
        first: r#"{"name":"S","sources":[{"name":"P"}"#,
        front: r#",{"name":"P"#,
        back: r#""}"#,
        last: "]}",
    },
    Kind {
        name: "escapes",
        first: r#"{"name":""#,
        front: r"\u0041",
        back: "",
        last: r#""}"#,
    },
    Kind {
        name: "digits",
        first: r#"{"name":"S","max_msgs":1"#,
        front: "",
        back: "",
        last: "}",
    },
    Kind {
        name: "fractions",
        first: r#"{"name":"S","max_msgs":1."#,
        front: "",
        back: "",
        last: "}",
    },
    Kind {
        name: "nests",
        first: r#"{"name":"S","metadata":"#,
        front: "[",
        back: ",[",
        last: "}",
    },
];

/// A payload of this kind with numbered items, until it has so many bytes.
fn payload(alloc: Global, kind: &Kind, bytes: usize) -> Result<String, AllocError> {
    let mut text = String::new(alloc);
    text.push_str(kind.first)?;
    for at in 0..bytes {
        if text.len() >= bytes {
            break;
        }
        let item = format!(in alloc; "{}{at}{}", kind.front, kind.back)?;
        text.push_str(item.as_str())?;
    }
    text.push_str(kind.last)?;
    Ok(text)
}

fn outcome(read: &Result<ApiCall, ApiFault>) -> &'static str {
    match read {
        Ok(_) => "read",
        Err(ApiFault::NoMemory) => "no memory",
        Err(_) => "refused",
    }
}

/// What the payload is read as.
fn read(alloc: Global, kind: &Kind, bytes: usize) -> Result<&'static str, TextFault> {
    let text = payload(alloc, kind, bytes)?;
    let subject = Subject::read(alloc, SUBJECT)?;
    let read = read_request(alloc, &subject, text.as_bytes());
    let outcome = outcome(&read);
    drop(read);
    Ok(outcome)
}

fn kind_of(word: &str) -> Option<&'static Kind> {
    KINDS.iter().find(|kind| kind.name == word)
}

fn main(rt: HostRuntime) -> ExitCode {
    let Some((kind, bytes)) = words(&rt) else {
        return ExitCode::from(2);
    };
    let Ok(outcome) = read(rt.alloc(), kind, bytes) else {
        return ExitCode::from(1);
    };
    if println!(rt; "{outcome}").is_err() {
        return ExitCode::from(1);
    }
    ExitCode::from(0)
}

/// The kind of payload, and how many bytes.
fn words(rt: &HostRuntime) -> Option<(&'static Kind, usize)> {
    let mut words = env::args(rt).ok()?;
    let kind = kind_of(words.nth(1)?.as_str())?;
    let bytes = words.next()?.parse().ok()?;
    Some((kind, bytes))
}
