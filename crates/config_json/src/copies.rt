//! What a stream copies.
ghost use Rattle.std.specs.Prelude.{◌≡◌, codes, Err};
ghost use Rattle.serde_json.specs.Find.{get};
ghost use Rattle.serde_json.specs.View.{view};
ghost use Rattle.stream_fold.specs.declared.config.Copies.{Copies as copies_type};
ghost use Rattle.config_json.specs.declared.fault.ApiFault.TheVariants.{BadConfig};
ghost use Rattle.config_json.specs.Answers.{IsRead, and_then};
ghost use Rattle.config_json.specs.Reading.{are_wrong_sources, copies_in, is_wrong_mirror, mirror_of, sources_of, takes_all};

use crate::ApiFault;
use crate::fault::bad;
use crate::limits::Limits;
use crate::origin::{origin_of, origins_of};
use nats_text::{Origin, Pattern};
use serde_json::Value;
use std::alloc::Global;
use stream_fold::{Copies, Discard};

/// The greatest number of sources of a stream.
const MOST_SOURCES: usize = 32;

fn takes_all(limits: &Limits) -> bool
    ensures { result ≡ takes_all limits.now }
{
    limits.discard == Discard::Old && limits.max_msg_size == 0
}

fn is_wrong_mirror(subjects: &[Pattern], limits: &Limits, origin: &Origin) -> bool
    ensures { result ≡ is_wrong_mirror subjects.now limits.now origin.now }
{
    origin.filter.is_some() || !origin.maps.is_empty() || !subjects.is_empty() || !takes_all(limits)
}

fn mirror_of(
    alloc: Global,
    subjects: &[Pattern],
    limits: &Limits,
    value: &Value,
) -> Result<Copies, ApiFault>
    ensures { IsRead result (mirror_of subjects.now limits.now (view value.now)) }
{
    let origin = origin_of(alloc, "mirror", value)?;
    if is_wrong_mirror(subjects, limits, &origin) {
        Err(bad(alloc, "mirror"))
    } else {
        Ok(Copies::Mirror(origin))
    }
}

fn are_wrong_sources(limits: &Limits, origins: &[Origin]) -> bool
    ensures { result ≡ are_wrong_sources limits.now origins.now }
{
    origins.is_empty() || origins.len() > MOST_SOURCES || !takes_all(limits)
}

fn sources_of(alloc: Global, limits: &Limits, value: &Value) -> Result<Copies, ApiFault>
    ensures { IsRead result (sources_of limits.now (view value.now)) }
{
    let Some(values) = value.as_array() else {
        return Err(bad(alloc, "sources"));
    };
    let origins = origins_of(alloc, values)?;
    if are_wrong_sources(limits, origins.as_slice()) {
        Err(bad(alloc, "sources"))
    } else {
        Ok(Copies::Sources(origins))
    }
}

/// A mirror beside sources is wrong: in itself, or else because of the sources.
fn mirror_beside_sources(
    alloc: Global,
    subjects: &[Pattern],
    limits: &Limits,
    mirror: &Value,
) -> ApiFault
    ensures { IsRead {T = copies_type} (Err result) (and_then (mirror_of subjects.now limits.now (view mirror.now)) (λ copies. Err (BadConfig (codes "sources")))) }
{
    match mirror_of(alloc, subjects, limits, mirror) {
        Ok(_) => bad(alloc, "sources"),
        Err(fault) => fault,
    }
}

/// What a stream with these subjects and limits copies, or the first wrong member.
pub(crate) fn copies_in(
    alloc: Global,
    subjects: &[Pattern],
    limits: &Limits,
    value: &Value,
) -> Result<Copies, ApiFault>
    ensures { IsRead result (copies_in subjects.now limits.now (get (codes "mirror") (view value.now)) (get (codes "sources") (view value.now))) }
{
    match (value.get("mirror"), value.get("sources")) {
        (None, None) => Ok(Copies::Nothing),
        (None, Some(sources)) => sources_of(alloc, limits, sources),
        (Some(mirror), None) => mirror_of(alloc, subjects, limits, mirror),
        (Some(mirror), Some(_)) => Err(mirror_beside_sources(alloc, subjects, limits, mirror)),
    }
}
