use nats_text::{Bytes, Headers, List, Message, Name, Parcel, Pattern, Subject, TextFault};
use std::alloc::Global;

/// The subject, the reply subject if any, the header block and the payload of a message.
pub type Row = [&'static str; 4];

/// The message of a row.
pub fn parcel(alloc: Global, row: &Row) -> Result<Parcel, TextFault> {
    let reply = if row[1].is_empty() {
        None
    } else {
        Some(Subject::read(alloc, row[1].as_bytes())?)
    };
    Ok(Parcel {
        subject: Subject::read(alloc, row[0].as_bytes())?,
        reply,
        headers: Headers::read(alloc, row[2].as_bytes())?,
        payload: Bytes::from_slice(alloc, row[3].as_bytes())?,
    })
}

/// A name of these bytes.
pub fn name(alloc: Global, text: &str) -> Result<Name, TextFault> {
    Name::read(alloc, text.as_bytes())
}

/// The patterns of these texts.
pub fn patterns(alloc: Global, texts: &[&str]) -> Result<List<Pattern>, TextFault> {
    let mut list = List::new(alloc);
    for text in texts {
        list.push(Pattern::read(alloc, text.as_bytes())?)?;
    }
    Ok(list)
}

/// A message of a subject, a header block, a payload and a time.
pub fn message(alloc: Global, row: [&str; 3], time: u64) -> Result<Message, TextFault> {
    Ok(Message {
        subject: Subject::read(alloc, row[0].as_bytes())?,
        headers: Headers::read(alloc, row[1].as_bytes())?,
        payload: Bytes::from_slice(alloc, row[2].as_bytes())?,
        time,
    })
}
