//! Which transforms a stream and its sources may have, and what a stream's own one does.
ghost use Rattle.stream_fold.specs.Histories.{History};
ghost use Rattle.stream_fold.specs.Held.{StandsFor};

use crate::configs::is_wrong;
use crate::entries::{full_of_one, number_in};
use crate::table::fields;
use nats_text::{Bytes, List, Mapping, Name, Origin, Pattern, Start, Subject, TextFault, pieces};
use std::alloc::Global;
use std::test::Fail;
use stream_fold::{Config, Copies, Discard, Entry, StreamState};

// Each row is a source, a destination, and the member that is wrong.
const OWN: &[u8] = b"\
    a.*|b.$1|\n\
    a.>|b.>|\n\
    a.*| b. $1\t|\n\
    a.*|b.$2|subject_transform\n\
    a.*||subject_transform\n\
    a.*| \t|subject_transform\n\
    a..b|b|subject_transform\n\
    a.>|b|subject_transform";

#[test]
fn a_stream_has_a_transform_alone(rt: HostRuntime) -> Result<(), Fail> {
    for row in &pieces(rt.alloc(), OWN, b'\n')? {
        let is_right = own_is_told(rt.alloc(), row)?;
        assert!(rt; is_right, "{row:?}");
    }
    Ok(())
}

fn own_is_told(alloc: Global, row: &[u8]) -> Result<bool, TextFault> {
    let (src, rest) = fields(row, b'|');
    let (dest, member) = fields(rest, b'|');
    let config = own(alloc, src, dest)?;
    Ok(is_wrong(alloc, &config, member))
}

fn own(alloc: Global, src: &[u8], dest: &[u8]) -> Result<Config, TextFault> {
    let mut config = full_of_one(alloc)?;
    config.transform = Some(mapping(alloc, src, dest)?);
    Ok(config)
}

fn mapping(alloc: Global, src: &[u8], dest: &[u8]) -> Result<Mapping, TextFault> {
    let src = Bytes::from_slice(alloc, src)?;
    Ok(Mapping {
        src,
        dest: Bytes::from_slice(alloc, dest)?,
    })
}

#[test]
fn a_stream_stores_under_its_transform(rt: HostRuntime) -> Result<(), Fail> {
    let is_right = is_transformed(rt.alloc())?;
    assert!(rt; is_right);
    Ok(())
}

// The transform of a changed configuration takes the place of the first one.
fn is_transformed(alloc: Global) -> Result<bool, TextFault> {
    let mut state = StreamState::new(alloc, own(alloc, b"a.*", b"b.$1")?)?;
    let before = is_stored_as(alloc, &state, b"a.x", b"b.x")?;
    let stays = is_stored_as(alloc, &state, b"c.x", b"")?;
    let is_taken = update(&mut state, own(alloc, b"c.*", b"d.$1")?)?;
    let after = is_stored_as(alloc, &state, b"c.x", b"d.x")?;
    Ok(before && stays && is_taken && after)
}

/// Whether the state puts this subject in the place of the other one, or none where it is empty.
fn is_stored_as(
    alloc: Global,
    state: &StreamState,
    subject: &[u8],
    stored: &[u8],
) -> Result<bool, TextFault> {
    let subject = Subject::read(alloc, subject)?;
    match state.stored_subject(alloc, &subject)? {
        Some(other) => Ok(other.bytes() == stored),
        None => Ok(stored.is_empty()),
    }
}

/// Whether the configuration may take the place of the one in force, and was taken.
fn update(state: &mut StreamState, config: Config) -> Result<bool, TextFault>
    requires { (h : History) × StandsFor state.old h }
{
    let entry = Entry::Limits { config };
    if !state.fits(&entry) {
        drop(entry);
        return Ok(false);
    }
    state.reserve_for(&entry)?;
    state.apply(entry);
    Ok(true)
}

// A text has at most 1,024 bytes, its blanks among them.
#[test]
fn a_text_has_1024_bytes(rt: HostRuntime) -> Result<(), Fail> {
    let fits = blanks_are_told(rt.alloc(), 1023, b"")?;
    assert!(rt; fits);
    let is_long = blanks_are_told(rt.alloc(), 1024, b"subject_transform")?;
    assert!(rt; is_long);
    Ok(())
}

fn blanks_are_told(alloc: Global, count: usize, member: &[u8]) -> Result<bool, TextFault> {
    let mut dest = Vec::new(alloc);
    for _ in 0..count {
        dest.push(b' ')?;
    }
    dest.push(b'b')?;
    let config = own(alloc, b"a", &dest)?;
    Ok(is_wrong(alloc, &config, member))
}

#[test]
fn a_mirror_has_no_transform(rt: HostRuntime) -> Result<(), Fail> {
    let is_told = mirror_is_told(rt.alloc())?;
    assert!(rt; is_told);
    Ok(())
}

fn mirror_is_told(alloc: Global) -> Result<bool, TextFault> {
    let mut config = own(alloc, b"a.*", b"b.$1")?;
    config.subjects = List::new(alloc);
    config.discard = Discard::Old;
    config.copies = Copies::Mirror(origin(alloc, b"", List::new(alloc))?);
    Ok(is_wrong(alloc, &config, b"subject_transform"))
}

fn origin(alloc: Global, filter: &[u8], maps: List<Mapping>) -> Result<Origin, TextFault> {
    let stream = Name::read(alloc, b"S")?;
    let filter = filter_in(alloc, filter)?;
    Ok(Origin {
        node: None,
        stream,
        start: Start::Seq(1),
        filter,
        maps,
    })
}

fn filter_in(alloc: Global, text: &[u8]) -> Result<Option<Pattern>, TextFault> {
    if text.is_empty() {
        return Ok(None);
    }
    Ok(Some(Pattern::read(alloc, text)?))
}

// Each row is a filter, how often a map stands, its source and destination, and the member that is
// wrong.
const SOURCES: &[u8] = b"\
    a.>|0|||\n\
    |16|a.*|b.$1|\n\
    |1|a.*||\n\
    |1|a.*| \t|\n\
    a.>|1|a.*|b.$1|subject_transforms\n\
    |17|a.*|b.$1|subject_transforms\n\
    |1|a.*|b.$2|subject_transforms\n\
    |1|a..b||subject_transforms\n\
    |1|a.>|b|subject_transforms";

#[test]
fn a_source_has_a_filter_or_maps(rt: HostRuntime) -> Result<(), Fail> {
    for row in &pieces(rt.alloc(), SOURCES, b'\n')? {
        let is_right = source_is_told(rt.alloc(), row)?;
        assert!(rt; is_right, "{row:?}");
    }
    Ok(())
}

fn source_is_told(alloc: Global, row: &[u8]) -> Result<bool, TextFault> {
    let (filter, rest) = fields(row, b'|');
    let (count, rest) = fields(rest, b'|');
    let (src, rest) = fields(rest, b'|');
    let (dest, member) = fields(rest, b'|');
    let maps = maps(alloc, number_in(count), src, dest)?;
    let config = sourced(alloc, filter, maps)?;
    Ok(is_wrong(alloc, &config, member))
}

fn maps(alloc: Global, count: u64, src: &[u8], dest: &[u8]) -> Result<List<Mapping>, TextFault> {
    let mut maps = List::new(alloc);
    for _ in 0..count {
        maps.push(mapping(alloc, src, dest)?)?;
    }
    Ok(maps)
}

fn sourced(alloc: Global, filter: &[u8], maps: List<Mapping>) -> Result<Config, TextFault> {
    let mut config = full_of_one(alloc)?;
    config.discard = Discard::Old;
    let mut origins = List::new(alloc);
    origins.push(origin(alloc, filter, maps)?)?;
    config.copies = Copies::Sources(origins);
    Ok(config)
}
