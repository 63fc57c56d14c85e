//! Applies a transform to one subject over and over. The word is how often. It prints the last subject that
//! came out.
#![tactic(auto)]

use nats_text::{Subject, TextFault};
use std::alloc::Global;
use std::env;
use std::process::ExitCode;
use subject_transform::{Transform, TransformFault};

const SOURCE: &[u8] = b"a.*.*";

const DESTINATION: &[u8] = b"b.{{partition(10,1,2)}}.$2";

const SUBJECT: &[u8] = b"a.first.second";

/// The last of so many subjects that the transform makes, one after another.
fn last_of(alloc: Global, count: u64) -> Result<Option<Subject>, TransformFault> {
    let transform = Transform::read(alloc, SOURCE, DESTINATION)?;
    let Some(subject) = subject(alloc)? else {
        return Ok(None);
    };
    let mut last = None;
    for _ in 0..count {
        last = transform.apply(alloc, &subject)?;
    }
    Ok(last)
}

fn subject(alloc: Global) -> Result<Option<Subject>, TransformFault> {
    match Subject::read(alloc, SUBJECT) {
        Ok(subject) => Ok(Some(subject)),
        Err(TextFault::Bad { .. }) => Ok(None),
        Err(TextFault::NoMemory) => Err(TransformFault::NoMemory),
    }
}

/// How often.
fn count(rt: HostRuntime) -> Option<u64> {
    env::args(&rt).ok()?.nth(1)?.parse().ok()
}

fn main(rt: HostRuntime) -> ExitCode {
    let Some(count) = count(rt) else {
        return ExitCode::from(2);
    };
    let Ok(Some(last)) = last_of(rt.alloc(), count) else {
        return ExitCode::from(1);
    };
    let Ok(text) = str::from_utf8(last.bytes()) else {
        return ExitCode::from(1);
    };
    if println!(rt; "{text}").is_err() {
        return ExitCode::from(1);
    }
    ExitCode::from(0)
}
