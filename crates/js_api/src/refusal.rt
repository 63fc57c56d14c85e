ghost use Rattle.std.specs.Prelude.{◌≡◌, ◌++◌, codes, decimal, string_bytes, IfOk, OnOk, OnErr};
ghost use Rattle.std.specs.Str.{IsUtf8};
ghost use Rattle.js_api.specs.Answers.{HasTexts};
ghost use Rattle.js_api.specs.Refusals.{row, own_text, HasText};
ghost use Rattle.js_api.specs.declared.reply.ApiReply.{ApiReply as Reply};
ghost use Rattle.js_api.specs.declared.reply.ApiReply.TheVariants.{Fault};

use crate::ApiReply;
use crate::text::{push_name, push_number, push_text};
use nats_text::{Bytes, Name, NoMemory};
use std::alloc::Global;

/// Why a request or a publish is refused, as clients are told it.
#[derive(Debug, Drop)]
pub enum ApiRefusal {
    /// No stream has the name.
    NoStream,
    /// A stream of the name has another configuration.
    NameTaken,
    /// No such message is kept.
    NoMessage,
    /// This member of the configuration is wrong.
    BadConfig { member: Bytes },
    /// The stream `other` has a subject in common.
    Overlap { other: Name },
    /// The stream is a mirror, which takes no publish.
    IsMirror,
    /// This header isn't taken.
    BadHeader { name: Bytes },
    /// The publish expects another stream.
    WrongStream,
    /// The publish expects another last number than `kept`.
    WrongLast { kept: u64 },
    /// The publish expects another last number of its subject than `kept`.
    WrongSubjectLast { kept: u64 },
    /// The message is too large for the stream.
    TooLarge,
    /// The stream has had its last number.
    SeqEnd,
    /// The stream is full and drops no message.
    Full,
    /// There are as many streams as there may be.
    TooManyStreams,
    /// The stream has as many consumers as it may have.
    TooManyConsumers,
    /// The journal has no room.
    JournalFull,
    /// A disk failed.
    DiskFault,
    /// What a disk holds is no journal.
    BadJournal,
    /// There was no memory.
    NoMemory,
    /// Consumers are made for the copies of other nodes alone.
    NotForClients,
    /// The request isn't one.
    BadRequest,
    /// The connection has as many subscriptions as it may have.
    TooMany,
}

impl ApiRefusal {
    /// The status, as one of HTTP.
    pub fn code(&self) -> u32
        ensures { result ≡ (row self.now).code }
    {
        match self {
            ApiRefusal::NoStream | ApiRefusal::NoMessage => 404,
            ApiRefusal::JournalFull
            | ApiRefusal::DiskFault
            | ApiRefusal::BadJournal
            | ApiRefusal::NoMemory => 500,
            _ => 400,
        }
    }

    /// The number by which clients tell refusals apart.
    pub fn err_code(&self) -> u32
        ensures { result ≡ (row self.now).err_code }
    {
        match self {
            ApiRefusal::NoStream => 10059,
            ApiRefusal::NameTaken => 10058,
            ApiRefusal::NoMessage => 10037,
            ApiRefusal::BadConfig { .. } => 10901,
            ApiRefusal::Overlap { .. } => 10902,
            ApiRefusal::IsMirror => 10903,
            ApiRefusal::BadHeader { .. } => 10904,
            ApiRefusal::WrongStream => 10905,
            ApiRefusal::WrongLast { .. } => 10906,
            ApiRefusal::WrongSubjectLast { .. } => 10907,
            ApiRefusal::TooLarge => 10908,
            ApiRefusal::SeqEnd => 10909,
            ApiRefusal::Full => 10910,
            ApiRefusal::TooManyStreams => 10911,
            ApiRefusal::TooManyConsumers => 10912,
            ApiRefusal::JournalFull => 10913,
            ApiRefusal::DiskFault => 10914,
            ApiRefusal::BadJournal => 10915,
            ApiRefusal::NoMemory => 10916,
            ApiRefusal::NotForClients => 10917,
            ApiRefusal::BadRequest => 10918,
            ApiRefusal::TooMany => 10919,
        }
    }

    /// The description without what it ends in of the refusal's own.
    fn front(&self) -> &'static [u8]
        ensures { (row self.now).text ≡ result.now ++ own_text self.now }
    {
        match self {
            ApiRefusal::NoStream => b"stream not found",
            ApiRefusal::NameTaken => b"stream name already in use with a different configuration",
            ApiRefusal::NoMessage => b"no message found",
            ApiRefusal::BadConfig { .. } => b"bad member: ",
            ApiRefusal::Overlap { .. } => b"subjects overlap with stream ",
            ApiRefusal::IsMirror => b"stream is a mirror",
            ApiRefusal::BadHeader { .. } => b"bad header: ",
            ApiRefusal::WrongStream => b"expected stream does not match",
            ApiRefusal::WrongLast { .. } => b"wrong last sequence: ",
            ApiRefusal::WrongSubjectLast { .. } => b"wrong last subject sequence: ",
            ApiRefusal::TooLarge => b"message size exceeds maximum allowed",
            ApiRefusal::SeqEnd => b"no sequence left",
            ApiRefusal::Full => b"stream is full",
            ApiRefusal::TooManyStreams => b"too many streams",
            ApiRefusal::TooManyConsumers => b"too many consumers",
            ApiRefusal::JournalFull => b"journal is full",
            ApiRefusal::DiskFault => b"disk fault",
            ApiRefusal::BadJournal => b"bad journal",
            ApiRefusal::NoMemory => b"out of memory",
            ApiRefusal::NotForClients => b"consumers are internal",
            ApiRefusal::BadRequest => b"bad request",
            ApiRefusal::TooMany => b"too many subscriptions",
        }
    }

    /// Adds what the description ends in of the refusal's own: a member, a stream, a header or a number.
    fn push_own(&self, text: &mut Vec<u8>) -> Result<(), NoMemory>
        ensures value { OnOk result (text.new.items ≡ text.old.items ++ own_text self.now) }
        ensures utf8 { HasText self.now → OnOk result (IsUtf8 (own_text self.now)) }
    {
        match self {
            ApiRefusal::BadConfig { member } => push_text(text, member.as_slice()),
            ApiRefusal::Overlap { other } => push_name(text, other),
            ApiRefusal::BadHeader { name } => push_text(text, name.as_slice()),
            ApiRefusal::WrongLast { kept } | ApiRefusal::WrongSubjectLast { kept } => {
                push_number(text, *kept)
            }
            _ => Ok(()),
        }
    }

    /// The description.
    pub fn text(&self, alloc: Global) -> Result<Bytes, NoMemory>
        ensures value { IfOk result (λ text. text ≡ (row self.now).text) }

        // It is UTF-8 where what it is made of is.
        ensures utf8 { HasText self.now → IfOk result (λ text. IsUtf8 text) }
    {
        let mut text = Vec::new(alloc);
        push_text(&mut text, self.front())?;
        self.push_own(&mut text)?;
        Ok(Bytes::from_vec(text))
    }

    /// The refusal as the answer to a request.
    pub fn reply(&self, alloc: Global) -> Result<ApiReply, NoMemory>
        ensures value { IfOk result (λ reply. reply ≡ Fault (row self.now).code (row self.now).err_code (row self.now).text) }

        // It can be written where what the description is made of is UTF-8.
        ensures texts { HasText self.now → IfOk result HasTexts }
    {
        Ok(ApiReply::Fault {
            code: self.code(),
            err_code: self.err_code(),
            text: self.text(alloc)?,
        })
    }
}
