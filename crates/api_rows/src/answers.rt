ghost use Rattle.std.specs.Prelude.{◌≡◌, true, IfOk};
ghost use Rattle.config_json.specs.Writing.{is_text};
ghost use Rattle.js_api.specs.Answers.{HasTexts};

use config_json::{config_of_json, has_texts};
use js_api::{
    ApiCall, ApiRefusal, ApiReply, StateFacts, Which2, write_ack, write_ack_fault, write_answer,
};
use nats_text::{Bytes, Headers, List, Message, Name, NoMemory, Subject, TextFault};
use std::alloc::Global;
use std::test::Fail;
use stream_fold::{Config, Numbered};

fn name(alloc: Global, text: &str) -> Result<Name, TextFault> {
    Name::read(alloc, text.as_bytes())
}

/// A stream of the name S of which nothing else is said.
fn config(alloc: Global) -> Result<Config, TextFault>
    ensures { IfOk result (λ config. is_text config ≡ true) }
{
    match config_of_json(alloc, br#"{"name":"S"}"#) {
        Ok(config) => {
            if has_texts(&config) {
                Ok(config)
            } else {
                Err(TextFault::NoMemory)
            }
        }
        Err(_) => Err(TextFault::NoMemory),
    }
}

const FACTS: StateFacts = StateFacts {
    created: 1_700_000_000_000_000_001,
    first: 2,
    last: 18446744073709551615,
    count: 4,
    bytes: 5,
    consumers: 6,
};

/// A message of a subject, a header block and a payload.
fn found(alloc: Global, subject: &str, block: &str, payload: &str) -> Result<Numbered, TextFault> {
    Ok(Numbered {
        seq: 7,
        message: Message {
            subject: Subject::read(alloc, subject.as_bytes())?,
            headers: Headers::read(alloc, block.as_bytes())?,
            payload: Bytes::from_slice(alloc, payload.as_bytes())?,
            time: 0,
        },
    })
}

const CREATED: &str =
    r#"{"config":{"discard":"old","duplicate_window":120000000000,"max_age":0,"max_bytes":-1,"max_msg_size":-1,"max_msgs":-1,"max_msgs_per_subject":-1,"name":"S","num_replicas":1,"retention":"limits","storage":"file","subjects":["S"]},"created":"2023-11-14T22:13:20.000000001Z","did_create":true,"state":{"bytes":5,"consumer_count":6,"first_seq":2,"last_seq":18446744073709551615,"messages":4},"type":"io.nats.jetstream.api.v1.stream_create_response"}"#;

const STOOD: &str =
    r#"{"config":{"discard":"old","duplicate_window":120000000000,"max_age":0,"max_bytes":-1,"max_msg_size":-1,"max_msgs":-1,"max_msgs_per_subject":-1,"name":"S","num_replicas":1,"retention":"limits","storage":"file","subjects":["S"]},"created":"2023-11-14T22:13:20.000000001Z","did_create":false,"state":{"bytes":5,"consumer_count":6,"first_seq":2,"last_seq":18446744073709551615,"messages":4},"type":"io.nats.jetstream.api.v1.stream_create_response"}"#;

const SHOWN: &str =
    r#"{"config":{"discard":"old","duplicate_window":120000000000,"max_age":0,"max_bytes":-1,"max_msg_size":-1,"max_msgs":-1,"max_msgs_per_subject":-1,"name":"S","num_replicas":1,"retention":"limits","storage":"file","subjects":["S"]},"created":"2023-11-14T22:13:20.000000001Z","state":{"bytes":5,"consumer_count":6,"first_seq":2,"last_seq":18446744073709551615,"messages":4},"type":"io.nats.jetstream.api.v1.stream_info_response"}"#;

const CHANGED: &str =
    r#"{"config":{"discard":"old","duplicate_window":120000000000,"max_age":0,"max_bytes":-1,"max_msg_size":-1,"max_msgs":-1,"max_msgs_per_subject":-1,"name":"S","num_replicas":1,"retention":"limits","storage":"file","subjects":["S"]},"created":"2023-11-14T22:13:20.000000001Z","state":{"bytes":5,"consumer_count":6,"first_seq":2,"last_seq":18446744073709551615,"messages":4},"type":"io.nats.jetstream.api.v1.stream_update_response"}"#;

fn create(alloc: Global) -> Result<ApiCall, TextFault> {
    let config = config(alloc)?;
    Ok(ApiCall::Create(config))
}

fn made(alloc: Global, fresh: bool) -> Result<ApiReply, TextFault>
    ensures { IfOk result (λ reply. HasTexts reply) }
{
    let config = config(alloc)?;
    Ok(ApiReply::Made {
        config,
        facts: FACTS,
        fresh,
    })
}

fn update(alloc: Global) -> Result<ApiCall, TextFault> {
    let config = config(alloc)?;
    Ok(ApiCall::Update(config))
}

fn info(alloc: Global, text: &str) -> Result<ApiCall, TextFault> {
    let name = name(alloc, text)?;
    Ok(ApiCall::Info(name))
}

fn info_reply(alloc: Global) -> Result<ApiReply, TextFault>
    ensures { IfOk result (λ reply. HasTexts reply) }
{
    let config = config(alloc)?;
    Ok(ApiReply::Info {
        config,
        facts: FACTS,
    })
}

/// What a request is answered, both of which are let go.
fn answer(alloc: Global, call: ApiCall, reply: ApiReply) -> Result<Bytes, NoMemory>
    requires { HasTexts reply }
{
    let text = write_answer(alloc, &call, &reply);
    drop(call);
    drop(reply);
    text
}

/// The answer to a creation that made the stream, or found it there.
fn created(alloc: Global, fresh: bool) -> Result<Bytes, TextFault> {
    let reply = made(alloc, fresh)?;
    match create(alloc) {
        Ok(call) => Ok(answer(alloc, call, reply)?),
        Err(fault) => {
            drop(reply);
            Err(fault)
        }
    }
}

/// The answer to the request for a stream.
fn shown(alloc: Global) -> Result<Bytes, TextFault> {
    let reply = info_reply(alloc)?;
    match info(alloc, "S") {
        Ok(call) => Ok(answer(alloc, call, reply)?),
        Err(fault) => {
            drop(reply);
            Err(fault)
        }
    }
}

/// The answer to a change of a stream.
fn changed(alloc: Global) -> Result<Bytes, TextFault> {
    let reply = info_reply(alloc)?;
    match update(alloc) {
        Ok(call) => Ok(answer(alloc, call, reply)?),
        Err(fault) => {
            drop(reply);
            Err(fault)
        }
    }
}

#[test]
fn streams_are_told(rt: HostRuntime) -> Result<(), Fail> {
    let alloc = rt.alloc();
    assert!(rt; created(alloc, true)?.as_slice() == CREATED.as_bytes());
    assert!(rt; created(alloc, false)?.as_slice() == STOOD.as_bytes());
    assert!(rt; shown(alloc)?.as_slice() == SHOWN.as_bytes());
    assert!(rt; changed(alloc)?.as_slice() == CHANGED.as_bytes());
    Ok(())
}

/// A request to take away a stream, a message or some messages of it.
fn taking(alloc: Global, at: usize) -> Result<ApiCall, TextFault> {
    let name = name(alloc, "S")?;
    match at {
        0 => Ok(ApiCall::Remove(name)),
        1 => Ok(ApiCall::Delete { name, seq: 1 }),
        _ => Ok(ApiCall::Purge {
            name,
            pattern: None,
            below: None,
        }),
    }
}

fn taken(at: usize) -> ApiReply
    ensures { HasTexts result }
{
    if at < 2 {
        ApiReply::Done
    } else {
        ApiReply::Purged { count: 3 }
    }
}

/// That a stream, a message or some messages of a stream are gone.
fn gone(alloc: Global, at: usize) -> Result<Bytes, TextFault> {
    let call = taking(alloc, at)?;
    Ok(answer(alloc, call, taken(at))?)
}

const GONE: [&str; 3] = [
    r#"{"success":true,"type":"io.nats.jetstream.api.v1.stream_delete_response"}"#,
    r#"{"success":true,"type":"io.nats.jetstream.api.v1.stream_msg_delete_response"}"#,
    r#"{"purged":3,"success":true,"type":"io.nats.jetstream.api.v1.stream_purge_response"}"#,
];

#[test]
fn what_is_gone_is_told(rt: HostRuntime) -> Result<(), Fail> {
    for (at, want) in GONE.iter().enumerate() {
        assert!(rt; gone(rt.alloc(), at)?.as_slice() == want.as_bytes());
    }
    Ok(())
}

fn names(alloc: Global, texts: &[&str]) -> Result<List<Name>, TextFault> {
    let mut list = List::new(alloc);
    for text in texts {
        list.push(name(alloc, text)?)?;
    }
    Ok(list)
}

/// The answer to the request for names.
fn listed(alloc: Global, texts: &[&str]) -> Result<Bytes, TextFault> {
    let names = names(alloc, texts)?;
    let reply = ApiReply::Listed {
        names,
        offset: 1,
        total: 3,
    };
    Ok(answer(alloc, ApiCall::Names { offset: 1 }, reply)?)
}

#[test]
fn names_are_told(rt: HostRuntime) -> Result<(), Fail> {
    let alloc = rt.alloc();
    assert!(rt;
        listed(alloc, &[])?.as_slice()
            == r#"{"limit":1024,"offset":1,"streams":[],"total":3,"type":"io.nats.jetstream.api.v1.stream_names_response"}"#.as_bytes()
    );
    assert!(rt;
        listed(alloc, &["A", "\"B"])?.as_slice()
            == r#"{"limit":1024,"offset":1,"streams":["A","\"B"],"total":3,"type":"io.nats.jetstream.api.v1.stream_names_response"}"#.as_bytes()
    );
    Ok(())
}

fn get(alloc: Global) -> Result<ApiCall, TextFault> {
    let name = name(alloc, "S")?;
    Ok(ApiCall::Get {
        name,
        which: Which2::Seq(7),
    })
}

/// The answer to the request for a message.
fn got(alloc: Global, block: &str, payload: &str) -> Result<Bytes, TextFault> {
    let found = found(alloc, "a.\"", block, payload)?;
    match get(alloc) {
        Ok(call) => Ok(answer(alloc, call, ApiReply::Found(found))?),
        Err(fault) => {
            drop(found);
            Err(fault)
        }
    }
}

/// The payloads are vectors of RFC 4648.
#[test]
fn messages_are_told(rt: HostRuntime) -> Result<(), Fail> {
    let alloc = rt.alloc();
    assert!(rt;
        got(alloc, "", "foob")?.as_slice()
            == r#"{"message":{"data":"Zm9vYg==","seq":7,"subject":"a.\"","time":"1970-01-01T00:00:00.000000000Z"},"type":"io.nats.jetstream.api.v1.stream_msg_get_response"}"#.as_bytes()
    );
    assert!(rt;
        got(alloc, "NATS/1.0\r\nA: b\r\n\r\n", "")?.as_slice()
            == r#"{"message":{"data":"","hdrs":"TkFUUy8xLjANCkE6IGINCg0K","seq":7,"subject":"a.\"","time":"1970-01-01T00:00:00.000000000Z"},"type":"io.nats.jetstream.api.v1.stream_msg_get_response"}"#.as_bytes()
    );
    Ok(())
}

/// The answer to a request for a stream that isn't there.
fn none(alloc: Global) -> Result<Bytes, TextFault> {
    let reply = ApiRefusal::NoStream.reply(alloc)?;
    match info(alloc, "NOPE") {
        Ok(call) => Ok(answer(alloc, call, reply)?),
        Err(fault) => {
            drop(reply);
            Err(fault)
        }
    }
}

#[test]
fn info_of_none(rt: HostRuntime) -> Result<(), Fail> {
    assert!(rt;
        none(rt.alloc())?.as_slice()
            == r#"{"error":{"code":404,"description":"stream not found","err_code":10059},"type":"io.nats.jetstream.api.v1.stream_info_response"}"#.as_bytes()
    );
    Ok(())
}

/// A refusal's status, its error code and its description.
fn words(alloc: Global, refusal: &ApiRefusal) -> Result<String, NoMemory> {
    let text = refusal.text(alloc)?;
    match str::from_utf8(text.as_slice()) {
        Ok(text) => Ok(format!(in alloc; "{} {} {text}", refusal.code(), refusal.err_code())?),
        Err(_) => Err(NoMemory),
    }
}

fn told(alloc: Global, refusal: ApiRefusal) -> Result<String, NoMemory> {
    let words = words(alloc, &refusal);
    drop(refusal);
    words
}

/// The refusals that name nothing.
fn refusal(at: usize) -> ApiRefusal {
    match at {
        0 => ApiRefusal::NameTaken,
        1 => ApiRefusal::NoMessage,
        2 => ApiRefusal::IsMirror,
        3 => ApiRefusal::WrongStream,
        4 => ApiRefusal::WrongLast { kept: 7 },
        5 => ApiRefusal::WrongSubjectLast { kept: 0 },
        6 => ApiRefusal::TooLarge,
        7 => ApiRefusal::SeqEnd,
        8 => ApiRefusal::Full,
        9 => ApiRefusal::TooManyStreams,
        10 => ApiRefusal::TooManyConsumers,
        11 => ApiRefusal::JournalFull,
        12 => ApiRefusal::DiskFault,
        13 => ApiRefusal::BadJournal,
        14 => ApiRefusal::NoMemory,
        15 => ApiRefusal::NotForClients,
        16 => ApiRefusal::BadRequest,
        _ => ApiRefusal::TooMany,
    }
}

const REFUSALS: [&str; 18] = [
    "400 10058 stream name already in use with a different configuration",
    "404 10037 no message found",
    "400 10903 stream is a mirror",
    "400 10905 expected stream does not match",
    "400 10906 wrong last sequence: 7",
    "400 10907 wrong last subject sequence: 0",
    "400 10908 message size exceeds maximum allowed",
    "400 10909 no sequence left",
    "400 10910 stream is full",
    "400 10911 too many streams",
    "400 10912 too many consumers",
    "500 10913 journal is full",
    "500 10914 disk fault",
    "500 10915 bad journal",
    "500 10916 out of memory",
    "400 10917 consumers are internal",
    "400 10918 bad request",
    "400 10919 too many subscriptions",
];

#[test]
fn refusals_are_told(rt: HostRuntime) -> Result<(), Fail> {
    for (at, want) in REFUSALS.iter().enumerate() {
        assert!(rt; told(rt.alloc(), refusal(at))?.as_str() == *want, "{want}");
    }
    Ok(())
}

fn bad_member(alloc: Global) -> Result<ApiRefusal, NoMemory> {
    let member = Bytes::from_slice(alloc, b"storage")?;
    Ok(ApiRefusal::BadConfig { member })
}

fn bad_header(alloc: Global) -> Result<ApiRefusal, NoMemory> {
    let name = Bytes::from_slice(alloc, b"Nats-Rollup")?;
    Ok(ApiRefusal::BadHeader { name })
}

fn overlap(alloc: Global) -> Result<ApiRefusal, TextFault> {
    let other = name(alloc, "T")?;
    Ok(ApiRefusal::Overlap { other })
}

#[test]
fn refusals_that_name_something_are_told(rt: HostRuntime) -> Result<(), Fail> {
    let alloc = rt.alloc();
    assert!(rt; told(alloc, bad_member(alloc)?)?.as_str() == "400 10901 bad member: storage");
    assert!(rt;
        told(alloc, overlap(alloc)?)?.as_str() == "400 10902 subjects overlap with stream T"
    );
    assert!(rt; told(alloc, bad_header(alloc)?)?.as_str() == "400 10904 bad header: Nats-Rollup");
    Ok(())
}

/// The acknowledgement of a publish.
fn ack(alloc: Global, duplicate: bool) -> Result<Bytes, TextFault> {
    let domain = name(alloc, "hub")?;
    let stream = name(alloc, "S")?;
    Ok(write_ack(alloc, &domain, &stream, 5, duplicate)?)
}

/// What a publish is answered that is refused.
fn refused(alloc: Global) -> Result<Bytes, TextFault> {
    let domain = name(alloc, "hub")?;
    let stream = name(alloc, "S")?;
    let text = "stream is full".as_bytes();
    Ok(write_ack_fault(alloc, &domain, &stream, 400, 10910, text)?)
}

#[test]
fn publishes_are_acknowledged(rt: HostRuntime) -> Result<(), Fail> {
    let alloc = rt.alloc();
    assert!(rt;
        ack(alloc, false)?.as_slice() == r#"{"domain":"hub","seq":5,"stream":"S"}"#.as_bytes()
    );
    assert!(rt;
        ack(alloc, true)?.as_slice()
            == r#"{"domain":"hub","duplicate":true,"seq":5,"stream":"S"}"#.as_bytes()
    );
    assert!(rt;
        refused(alloc)?.as_slice()
            == r#"{"domain":"hub","error":{"code":400,"description":"stream is full","err_code":10910},"seq":0,"stream":"S"}"#.as_bytes()
    );
    Ok(())
}
