//! What streams copy.
use crate::table::fields;
use nats_text::{Bytes, List, Mapping, Name, NoMemory, Origin, Pattern, Start, TextFault, pieces};
use std::alloc::Global;
use stream_fold::Copies;

/// A mirror of the stream `EU` from its second message on.
pub fn mirror(alloc: Global) -> Result<Copies, TextFault> {
    Ok(Copies::Mirror(origin(alloc, 2, None, List::new(alloc))?))
}

/// One source, the stream `EU` from its first message on, that takes what a text says: maps, with
/// commas between them and a `=` in each behind its source, or a filter, or all where it is empty.
pub fn source(alloc: Global, text: &[u8]) -> Result<Copies, TextFault> {
    let mut origins = List::new(alloc);
    let origin = if text.contains(&b'=') {
        origin(alloc, 1, None, maps(alloc, text)?)?
    } else {
        origin(alloc, 1, filter(alloc, text)?, List::new(alloc))?
    };
    origins.push(origin)?;
    Ok(Copies::Sources(origins))
}

fn origin(
    alloc: Global,
    start: u64,
    filter: Option<Pattern>,
    maps: List<Mapping>,
) -> Result<Origin, TextFault> {
    let stream = Name::read(alloc, b"EU")?;
    Ok(Origin {
        node: None,
        stream,
        start: Start::Seq(start),
        filter,
        maps,
    })
}

fn filter(alloc: Global, text: &[u8]) -> Result<Option<Pattern>, TextFault> {
    if text.is_empty() {
        return Ok(None);
    }
    Ok(Some(Pattern::read(alloc, text)?))
}

fn maps(alloc: Global, text: &[u8]) -> Result<List<Mapping>, NoMemory> {
    let mut maps = List::new(alloc);
    for map in &pieces(alloc, text, b',')? {
        let (src, dest) = fields(map, b'=');
        let src = Bytes::from_slice(alloc, src)?;
        let dest = Bytes::from_slice(alloc, dest)?;
        maps.push(Mapping { src, dest })?;
    }
    Ok(maps)
}
