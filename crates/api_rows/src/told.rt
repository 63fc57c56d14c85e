use js_api::{ApiCall, ApiFault, Which2, read_request};
use nats_text::{Name, Pattern, Subject, TextFault};
use std::alloc::{AllocError, Global};
use stream_fold::Config;

/// The bytes as a text, or a question mark.
fn shown(bytes: &[u8]) -> &str {
    match str::from_utf8(bytes) {
        Ok(text) => text,
        Err(_) => "?",
    }
}

fn named(alloc: Global, word: &str, name: &Name) -> Result<String, AllocError> {
    format!(in alloc; "{word} {}", shown(name.bytes()))
}

fn configured(alloc: Global, word: &str, config: &Config) -> Result<String, AllocError> {
    format!(in alloc; "{word} {} {}", shown(config.name.bytes()), config.max_msgs)
}

fn numbered(alloc: Global, word: &str, name: &Name, seq: u64) -> Result<String, AllocError> {
    format!(in alloc; "{word} {} {seq}", shown(name.bytes()))
}

fn names(alloc: Global, offset: u64) -> Result<String, AllocError> {
    format!(in alloc; "names {offset}")
}

fn pattern_text(pattern: &Option<Pattern>) -> &str {
    match pattern {
        Some(pattern) => shown(pattern.bytes()),
        None => "all",
    }
}

fn below_text(alloc: Global, below: Option<u64>) -> Result<String, AllocError> {
    match below {
        Some(below) => format!(in alloc; " below {below}"),
        None => format!(in alloc; ""),
    }
}

fn purge(
    alloc: Global,
    name: &Name,
    pattern: &Option<Pattern>,
    below: Option<u64>,
) -> Result<String, AllocError> {
    let below = below_text(alloc, below)?;
    format!(in alloc;
        "purge {} {}{below}",
        shown(name.bytes()),
        pattern_text(pattern)
    )
}

fn last(alloc: Global, name: &Name, subject: &Subject) -> Result<String, AllocError> {
    format!(in alloc;
        "get {} last of {}",
        shown(name.bytes()),
        shown(subject.bytes())
    )
}

fn get(alloc: Global, name: &Name, which: &Which2) -> Result<String, AllocError> {
    match which {
        Which2::Seq(seq) => numbered(alloc, "get", name, *seq),
        Which2::LastOf(subject) => last(alloc, name, subject),
    }
}

/// A request in words.
fn asked(alloc: Global, call: &ApiCall) -> Result<String, AllocError> {
    match call {
        ApiCall::Create(config) => configured(alloc, "create", config),
        ApiCall::Update(config) => configured(alloc, "update", config),
        ApiCall::Remove(name) => named(alloc, "remove", name),
        ApiCall::Info(name) => named(alloc, "info", name),
        ApiCall::Names { offset } => names(alloc, *offset),
        ApiCall::Purge {
            name,
            pattern,
            below,
        } => purge(alloc, name, pattern, *below),
        ApiCall::Get { name, which } => get(alloc, name, which),
        ApiCall::Delete { name, seq } => numbered(alloc, "delete", name, *seq),
    }
}

/// What kind of refusal it is, and the member that is named.
fn kind(fault: &ApiFault) -> (&str, &[u8]) {
    match fault {
        ApiFault::BadRequest => ("bad request", b""),
        ApiFault::BadConfig { member } => ("bad ", member.as_slice()),
        ApiFault::NotForClients => ("not for clients", b""),
        ApiFault::NotApi => ("not the API's", b""),
        ApiFault::NoMemory => ("no memory", b""),
    }
}

/// A refusal in words.
fn refused(alloc: Global, fault: &ApiFault) -> Result<String, AllocError> {
    let (words, member) = kind(fault);
    format!(in alloc; "{words}{}", shown(member))
}

fn told_of(alloc: Global, read: &Result<ApiCall, ApiFault>) -> Result<String, AllocError> {
    match read {
        Ok(call) => asked(alloc, call),
        Err(fault) => refused(alloc, fault),
    }
}

fn api_subject(alloc: Global, subject: &str) -> Result<Subject, TextFault> {
    let subject = format!(in alloc; "$JS.API.{subject}")?;
    Subject::read(alloc, subject.as_bytes())
}

/// What a subject behind `$JS.API.` and a payload are read as.
pub fn told(alloc: Global, subject: &str, payload: &[u8]) -> Result<String, TextFault> {
    let subject = api_subject(alloc, subject)?;
    let read = read_request(alloc, &subject, payload);
    let line = told_of(alloc, &read);
    drop(read);
    drop(subject);
    Ok(line?)
}
