ghost use Rattle.std.specs.Prelude.{◌≡◌, ◌≤◌, ◌+◌, length, count_by, nat_le, nat_lt, IfOk, is_some, is_none};
ghost use Rattle.std.specs.Str.{bytes_eq};
ghost use Rattle.std.specs.List.{list_any};
ghost use Rattle.nats_text.specs.Headers.{no_headers, written};
ghost use Rattle.nats_text.specs.Matching.{overlap};
ghost use Rattle.stream_fold.specs.Checking.{config_fault};
ghost use Rattle.stream_fold.specs.Histories.{either};
ghost use Rattle.leafd_cli.specs.Logs.{stream_at, has_node};
ghost use Rattle.leafd_cli.specs.Legal.{fault_if, fault_in, making_fault, place_fault, publish_fault, is_too_large, is_wrong_change, with_changes, is_one_too_many, is_overlapping, overlaps_stream, is_copied_out, lacks_node, origin_among, subject_count, copy_count, IsCapped, origins_of, is_from, is_node, is_in_shard, shard_of};

use crate::effects::with_changes;
use crate::finding::{has_node, origin_among, stream_at};
use crate::shard::shard_of;
use crate::stream::{Stream, is_same};
use leafd_script::{Changes, Line, ScriptKind};
use nats_text::{Bytes, Headers, Name, NoMemory, Origin, Pattern, overlaps};
use std::alloc::Global;
use stream_fold::{Config, ConfigFault, Copies};

/// The most nodes of a script.
const MOST_NODES: usize = 16;

/// The most streams of a shard.
const MOST_STREAMS: usize = 256;

/// The most subjects of all streams.
const MOST_SUBJECTS: usize = 60_000;

/// The most copies of one stream.
const MOST_COPIES: usize = 1_024;

/// The most bytes of header block and payload.
const MOST_CONTENT: usize = 2_000_000;

/// Why a line isn't legal in its place: the first of its faults.
pub fn fault_of(
    alloc: Global,
    nodes: &[Name],
    streams: &[Stream],
    line: &Line,
) -> Result<Option<ScriptKind>, NoMemory>
    ensures { IfOk result (λ fault. fault ≡ fault_in nodes.now streams.now line.now) }
{
    match line {
        Line::Node { node } => Ok(node_fault(nodes, node)),
        Line::Stream { node, config } => Ok(making_fault(nodes, streams, node, config)),
        Line::Mirror { node, config } => Ok(making_fault(nodes, streams, node, config)),
        Line::Update {
            node,
            name,
            changes,
        } => update_fault(alloc, nodes, streams, node, name, changes),
        Line::Publish {
            node,
            name,
            text,
            ..
        } => Ok(publish_fault(nodes, streams, node, name, &Headers::empty(alloc), text)),
        Line::PublishWithHeaders {
            node,
            name,
            headers,
            text,
            ..
        } => Ok(publish_fault(nodes, streams, node, name, headers, text)),
        Line::Delete { node, name, .. } => Ok(place_fault(nodes, streams, node, name)),
        Line::Purge { node, name, .. } => Ok(place_fault(nodes, streams, node, name)),
        Line::Expire { node, name } => Ok(place_fault(nodes, streams, node, name)),
        Line::Show { node, name } => Ok(place_fault(nodes, streams, node, name)),
        Line::Log { node, name } => Ok(place_fault(nodes, streams, node, name)),
        Line::Clock { .. } => Ok(None),
        Line::Settle => Ok(None),
        Line::Heads => Ok(None),
        Line::Quiet => Ok(None),
    }
}

fn node_fault(nodes: &[Name], node: &Name) -> Option<ScriptKind>
    ensures { result ≡ either (fault_if (has_node node.now nodes.now) ScriptKind.NodeTaken) (fault_if (nat_le 16 (length nodes.now)) ScriptKind.TooMany) }
{
    if has_node(nodes, node) {
        return Some(ScriptKind::NodeTaken);
    }
    if nodes.len() >= MOST_NODES {
        return Some(ScriptKind::TooMany);
    }
    None
}

/// Why the stream of a line isn't there.
fn place_fault(nodes: &[Name], streams: &[Stream], node: &Name, name: &Name) -> Option<ScriptKind>
    ensures { result ≡ place_fault nodes.now streams.now node.now name.now }
{
    if !has_node(nodes, node) {
        return Some(ScriptKind::NoNode);
    }
    if stream_at(streams, node, name).is_none() {
        return Some(ScriptKind::NoStream);
    }
    None
}

fn publish_fault(
    nodes: &[Name],
    streams: &[Stream],
    node: &Name,
    name: &Name,
    headers: &Headers,
    text: &Bytes,
) -> Option<ScriptKind>
    ensures { result ≡ publish_fault nodes.now streams.now node.now name.now headers.now text.now }
{
    if let Some(kind) = place_fault(nodes, streams, node, name) {
        return Some(kind);
    }
    if is_too_large(headers, text) {
        return Some(ScriptKind::TooMany);
    }
    None
}

fn is_too_large(headers: &Headers, text: &Bytes) -> bool
    ensures { result ≡ is_too_large headers.now text.now }
{
    headers.written_len().saturating_add(text.len()) > MOST_CONTENT
}

fn update_fault(
    alloc: Global,
    nodes: &[Name],
    streams: &[Stream],
    node: &Name,
    name: &Name,
    changes: &Changes,
) -> Result<Option<ScriptKind>, NoMemory>
    ensures { IfOk result (λ fault. fault ≡ fault_in nodes.now streams.now (Line.Update node.now name.now changes.now)) }
{
    if let Some(kind) = place_fault(nodes, streams, node, name) {
        return Ok(Some(kind));
    }
    if is_wrong_change(alloc, streams, node, name, changes)? {
        return Ok(Some(ScriptKind::BadOption));
    }
    Ok(None)
}

fn is_wrong_change(
    alloc: Global,
    streams: &[Stream],
    node: &Name,
    name: &Name,
    changes: &Changes,
) -> Result<bool, NoMemory>
    ensures { IfOk result (λ wrong. wrong ≡ is_wrong_change changes.now (stream_at node.now name.now streams.now)) }
{
    match stream_at(streams, node, name) {
        None => Ok(false),
        Some(stream) => has_fault(alloc, &with_changes(changes, stream.limits())?),
    }
}

fn has_fault(alloc: Global, config: &Config) -> Result<bool, NoMemory>
    ensures { IfOk result (λ wrong. wrong ≡ is_some (config_fault config.now)) }
{
    match config.check(alloc) {
        Ok(()) => Ok(false),
        Err(ConfigFault::Bad { .. }) => Ok(true),
        Err(ConfigFault::NoMemory) => Err(NoMemory),
    }
}

/// Why a stream of this configuration can't be made.
fn making_fault(
    nodes: &[Name],
    streams: &[Stream],
    node: &Name,
    config: &Config,
) -> Option<ScriptKind>
    ensures { result ≡ making_fault nodes.now streams.now node.now config.now }
{
    if !has_node(nodes, node) || any_lacks_node(nodes, origins_of(&config.copies)) {
        return Some(ScriptKind::NoNode);
    }
    if stream_at(streams, node, &config.name).is_some() {
        return Some(ScriptKind::StreamTaken);
    }
    if any_is_absent(streams, origins_of(&config.copies)) {
        return Some(ScriptKind::NoStream);
    }
    if is_overlapping(streams, node, config.subjects.as_slice()) {
        return Some(ScriptKind::Overlap);
    }
    if is_one_too_many(streams, node, config) {
        return Some(ScriptKind::TooMany);
    }
    None
}

fn origins_of(copies: &Copies) -> &[Origin]
    ensures { result.now ≡ origins_of copies.now }
{
    match copies {
        Copies::Nothing => &[],
        Copies::Mirror(origin) => std::slice::from_ref(origin),
        Copies::Sources(origins) => origins.as_slice(),
    }
}

fn any_lacks_node(nodes: &[Name], origins: &[Origin]) -> bool
    ensures { result ≡ list_any (λ origin. lacks_node nodes.now origin.node) origins.now }
{
    origins.iter().any(|origin| lacks_node(nodes, &origin.node))
}

fn lacks_node(nodes: &[Name], node: &Option<Name>) -> bool
    ensures { result ≡ lacks_node nodes.now node.now }
{
    match node {
        None => false,
        Some(node) => !has_node(nodes, node),
    }
}

fn any_is_absent(streams: &[Stream], origins: &[Origin]) -> bool
    ensures { result ≡ list_any (λ origin. is_none (origin_among origin streams.now)) origins.now }
{
    origins
        .iter()
        .any(|origin| origin_among(streams, origin).is_none())
}

fn is_overlapping(streams: &[Stream], node: &Name, subjects: &[Pattern]) -> bool
    ensures { result ≡ is_overlapping node.now subjects.now streams.now }
{
    streams
        .iter()
        .any(|s| s.is_on(node) && overlaps_stream(subjects, s))
}

fn overlaps_stream(subjects: &[Pattern], stream: &Stream) -> bool
    ensures { result ≡ overlaps_stream subjects.now stream.now }
{
    subjects
        .iter()
        .any(|a| overlaps_some(a, stream.config().subjects.as_slice()))
}

fn overlaps_some(pattern: &Pattern, patterns: &[Pattern]) -> bool
    ensures { result ≡ list_any (overlap pattern.now) patterns.now }
{
    patterns.iter().any(|b| overlaps(pattern, b))
}

fn is_one_too_many(streams: &[Stream], node: &Name, config: &Config) -> bool
    ensures { result ≡ is_one_too_many streams.now node.now config.now }
{
    shard_size(streams, node, shard_of(&config.name)) >= MOST_STREAMS
        || any_is_copied_out(streams, origins_of(&config.copies))
        || has_too_many_subjects(streams, config.subjects.len())
}

fn shard_size(streams: &[Stream], node: &Name, shard: u32) -> usize
    ensures { result ≡ count_by (is_in_shard node.now shard) streams.now }
{
    streams
        .iter()
        .filter(|s| is_in_shard(s, node, shard))
        .count()
}

fn is_in_shard(stream: &Stream, node: &Name, shard: u32) -> bool
    ensures { result ≡ is_in_shard node.now shard stream.now }
{
    stream.is_on(node) && shard_of(&stream.config().name) == shard
}

fn has_too_many_subjects(streams: &[Stream], more: usize) -> bool
    ensures { result ≡ nat_lt 60000 (subject_count streams.now + more) }
{
    subject_count(streams).saturating_add(more) > MOST_SUBJECTS
}

/// How many subjects all streams have, up to the greatest number of 64 bits.
fn subject_count(streams: &[Stream]) -> usize
    ensures { IsCapped result (subject_count streams.now) }
{
    let mut count = 0usize;
    for stream in streams {
        count = count.saturating_add(stream.config().subjects.len());
    }
    count
}

fn any_is_copied_out(streams: &[Stream], origins: &[Origin]) -> bool
    ensures { result ≡ list_any (λ origin. is_copied_out streams.now origin.node origin.stream) origins.now }
{
    origins.iter().any(|origin| is_copied_out(streams, origin))
}

fn is_copied_out(streams: &[Stream], origin: &Origin) -> bool
    ensures { result ≡ is_copied_out streams.now origin.now.node origin.now.stream }
{
    match &origin.node {
        None => false,
        Some(node) => copy_count(streams, node, &origin.stream) >= MOST_COPIES,
    }
}

/// How many copies name this stream as their origin, up to the greatest number of 64 bits.
fn copy_count(streams: &[Stream], node: &Name, name: &Name) -> usize
    ensures { IsCapped result (copy_count node.now name.now streams.now) }
{
    let mut count = 0usize;
    for stream in streams {
        count = count.saturating_add(count_from(origins_of(&stream.config().copies), node, name));
    }
    count
}

fn count_from(origins: &[Origin], node: &Name, name: &Name) -> usize
    ensures { result ≡ count_by (is_from node.now name.now) origins.now }
{
    origins
        .iter()
        .filter(|origin| is_from(origin, node, name))
        .count()
}

fn is_from(origin: &Origin, node: &Name, name: &Name) -> bool
    ensures { result ≡ is_from node.now name.now origin.now }
{
    is_node(&origin.node, node) && is_same(origin.stream.bytes(), name.bytes())
}

fn is_node(origin_node: &Option<Name>, node: &Name) -> bool
    ensures { result ≡ is_node origin_node.now node.now }
{
    match origin_node {
        Some(origin_node) => is_same(origin_node.bytes(), node.bytes()),
        None => false,
    }
}
