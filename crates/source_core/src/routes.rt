//! How a source takes a subject.
ghost use Rattle.std.specs.Prelude.{◌≡◌, None, Some, true, false, IsTrue, IfOk, IfSome};
ghost use Rattle.std.specs.List.{list_all};
ghost use Rattle.std.specs.Option.{option_map};
ghost use Rattle.nats_text.specs.Matching.{matches};
ghost use Rattle.nats_text.specs.Text.{tail};
ghost use Rattle.stream_fold.specs.Checking.{is_legal_map, leaves_subject};
ghost use Rattle.stream_fold.specs.Sourcing.{route, route_by_filter, route_by_map, route_by_maps, route_of_made};
ghost use Rattle.subject_transform.specs.Transforms.{is_blank, sub, without_blanks};
ghost use Rattle.source_core.specs.Origins.{IsSource, IsTold, IsWord};

use nats_text::{Bytes, Mapping, NoMemory, Origin, Pattern, Subject, TextFault, matches};
use std::alloc::Global;
use std::marker::Model;
use subject_transform::{Transform, TransformFault};

/// How a source takes a subject: the one under which it stores, and the filter and the destination that
/// were taken, where `>` stands for none.
#[derive(Debug, Drop)]
pub struct Route {
    pub subject: Subject,
    pub filter: Bytes,
    pub dest: Bytes,
}

impl Model for Route {
    ghost use Rattle.stream_fold.specs.Sourcing.{Route as Taken};

    ghost Value = { Taken };

    ghost view = { λ it. record { subject = it.subject; filter = it.filter; dest = it.dest } };
}

impl Route {
    /// The subject under which the source stores.
    pub fn into_subject(self) -> Subject
        ensures { result ≡ self.subject }
    {
        self.subject
    }
}

/// How the source of this origin takes a subject, where it takes it: by its maps, and where it has none
/// by its filter.
pub fn route_of(alloc: Global, want: &Origin, subject: &Subject) -> Result<Option<Route>, NoMemory>
    requires { IsSource want.now }
    ensures value { IfOk result (λ it. it ≡ route want.now.filter want.now.maps subject.now) }
    ensures told { IfOk result (λ it. IfSome it IsTold) }
{
    if want.maps.is_empty() {
        route_by_filter(alloc, &want.filter, subject)
    } else {
        route_by_maps(alloc, want.maps.as_slice(), subject)
    }
}

fn route_by_filter(
    alloc: Global,
    filter: &Option<Pattern>,
    subject: &Subject,
) -> Result<Option<Route>, NoMemory>
    ensures value { IfOk result (λ it. it ≡ route_by_filter filter.now subject.now) }
    ensures told { IfOk result (λ it. IfSome it IsTold) }
{
    match filter {
        None => kept_subject(alloc, subject, b">"),
        Some(filter) if matches(filter, subject) => kept_subject(alloc, subject, filter.bytes()),
        Some(_) => Ok(None),
    }
}

/// The route that leaves the subject.
fn kept_subject(alloc: Global, subject: &Subject, filter: &[u8]) -> Result<Option<Route>, NoMemory>
    requires { IsWord filter.now }
    ensures value { IfOk result (λ it. it ≡ Some (record { subject = subject.now; filter = filter.now; dest = tail })) }
    ensures told { IfOk result (λ it. IfSome it IsTold) }
{
    let _bytes = subject.bytes();
    Ok(Some(Route {
        subject: subject.clone()?,
        filter: Bytes::from_slice(alloc, filter)?,
        dest: Bytes::from_slice(alloc, b">")?,
    }))
}

/// The first map whose source matches decides.
fn route_by_maps(
    alloc: Global,
    maps: &[Mapping],
    subject: &Subject,
) -> Result<Option<Route>, NoMemory>
    requires { IsTrue (list_all is_legal_map maps.now) }
    ensures value { IfOk result (λ it. it ≡ route_by_maps maps.now subject.now) }
    ensures told { IfOk result (λ it. IfSome it IsTold) }
{
    for map in maps {
        if source_matches(alloc, map, subject)? {
            return route_by_map(alloc, map, subject);
        }
    }
    Ok(None)
}

fn source_matches(alloc: Global, map: &Mapping, subject: &Subject) -> Result<bool, NoMemory>
    requires { IsTrue (is_legal_map map.now) }
    ensures { IfOk result (λ is. is ≡ matches map.now.src subject.now) }
{
    match Pattern::read(alloc, map.src.as_slice()) {
        Ok(source) => Ok(matches(&source, subject)),
        Err(TextFault::Bad { .. }) => unreachable!(),
        Err(TextFault::NoMemory) => Err(NoMemory),
    }
}

fn route_by_map(alloc: Global, map: &Mapping, subject: &Subject) -> Result<Option<Route>, NoMemory>
    requires { IsTrue (is_legal_map map.now) }
    ensures value { IfOk result (λ it. it ≡ route_by_map map.now subject.now) }
    ensures told { IfOk result (λ it. IfSome it IsTold) }
{
    if leaves_subject(map.dest.as_slice()) {
        return kept_subject(alloc, subject, map.src.as_slice());
    }
    match Transform::read(alloc, map.src.as_slice(), map.dest.as_slice()) {
        Ok(transform) => made_by(alloc, &transform, subject),
        Err(TransformFault::Bad { .. }) => unreachable!(),
        Err(TransformFault::NoMemory) => Err(NoMemory),
    }
}

/// The route of a subject that a transform makes, where it makes one.
fn made_by(
    alloc: Global,
    transform: &Transform,
    subject: &Subject,
) -> Result<Option<Route>, NoMemory>
    ensures value { IfOk result (λ it. it ≡ option_map (λ made. record { subject = made; filter = transform.now.src; dest = transform.now.dest }) (sub transform.now.src transform.now.dest subject.now)) }
    ensures told { IfOk result (λ it. IfSome it IsTold) }
{
    let Some(made) = transform.apply(alloc, subject)? else {
        return Ok(None);
    };
    Ok(Some(Route {
        subject: made,
        filter: Bytes::from_slice(alloc, transform.src().bytes())?,
        dest: Bytes::from_slice(alloc, transform.dest())?,
    }))
}

/// Whether a destination leaves the subject: nothing but blanks stands in it.
fn leaves_subject(dest: &[u8]) -> bool
    ensures { result ≡ leaves_subject dest.now }
{
    dest.iter().all(|byte| is_blank(*byte))
}

fn is_blank(byte: u8) -> bool
    ensures { result ≡ is_blank byte }
{
    byte == b' ' || byte == b'\t'
}
