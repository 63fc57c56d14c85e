//! The subjects of a stream.
ghost use Rattle.std.specs.Prelude.{◌≡◌, [], codes, IfOk};
ghost use Rattle.std.specs.List.{list_any};
ghost use Rattle.nats_text.specs.Matching.{overlap};
ghost use Rattle.serde_json.specs.Find.{get};
ghost use Rattle.serde_json.specs.View.{view};
ghost use Rattle.stream_fold.specs.Checking.{is_copy, own_subjects, some_overlap};
ghost use Rattle.config_json.specs.Others.{absent_or};
ghost use Rattle.config_json.specs.Reading.{are_wrong_subjects, subjects_of, subjects_or_name};

use crate::value::patterns_of;
use nats_text::{List, Name, NoMemory, Pattern, Subject, TextFault, overlaps};
use serde_json::Value;
use std::alloc::Global;
use stream_fold::Copies;

/// The greatest number of subjects of a stream.
const MOST_SUBJECTS: usize = 64;

/// The subjects under which a node itself speaks.
fn own_subjects(alloc: Global) -> Result<Pattern, NoMemory>
    ensures { IfOk result (λ own. own ≡ own_subjects) }
{
    match Pattern::read(alloc, b"$JS.>") {
        Ok(own) => Ok(own),
        Err(TextFault::NoMemory) => Err(NoMemory),
        Err(TextFault::Bad { .. }) => unreachable!(),
    }
}

fn overlaps_some(pattern: &Pattern, patterns: &[Pattern]) -> bool
    ensures { result ≡ list_any (overlap pattern.now) patterns.now }
{
    patterns.iter().any(|other| overlaps(pattern, other))
}

fn some_overlap(patterns: &[Pattern]) -> bool
    ensures { result ≡ some_overlap patterns.now }
{
    let mut rest = patterns;
    while let Some((pattern, others)) = rest.split_first() {
        if overlaps_some(pattern, others) {
            return true;
        }
        rest = others;
    }
    false
}

fn are_wrong(own: &Pattern, subjects: &[Pattern]) -> bool
    requires { own.now ≡ own_subjects }
    ensures { result ≡ are_wrong_subjects subjects.now }
{
    subjects.len() > MOST_SUBJECTS || overlaps_some(own, subjects) || some_overlap(subjects)
}

fn subjects_of(alloc: Global, value: &Value) -> Result<Option<List<Pattern>>, NoMemory>
    ensures { IfOk result (λ s. s ≡ subjects_of (view value.now)) }
{
    let Some(values) = value.as_array() else {
        return Ok(None);
    };
    let Some(subjects) = patterns_of(alloc, values)? else {
        return Ok(None);
    };
    let own = own_subjects(alloc)?;
    if are_wrong(&own, subjects.as_slice()) {
        Ok(None)
    } else {
        Ok(Some(subjects))
    }
}

/// The subjects that are given, if they may be a stream's.
pub(crate) fn subjects_in(alloc: Global, value: &Value) -> Result<Option<List<Pattern>>, NoMemory>
    ensures { IfOk result (λ s. s ≡ absent_or [] subjects_of (get (codes "subjects") (view value.now))) }
{
    match value.get("subjects") {
        Some(member) => subjects_of(alloc, member),
        None => Ok(Some(List::new(alloc))),
    }
}

fn is_copy(copies: &Copies) -> bool
    ensures { result ≡ is_copy copies.now }
{
    match copies {
        Copies::Nothing => false,
        Copies::Mirror(_) | Copies::Sources(_) => true,
    }
}

/// A name as a pattern, which matches that name alone.
fn pattern_of_name(name: &Name) -> Result<Pattern, NoMemory>
    ensures { IfOk result (λ p. p ≡ name.now) }
{
    Ok(Pattern::of_subject(Subject::of_name(name.clone()?)))
}

/// The subjects of a stream: its name, where none are given and it is no copy.
pub(crate) fn subjects_or_name(
    name: &Name,
    copies: &Copies,
    subjects: List<Pattern>,
) -> Result<List<Pattern>, NoMemory>
    ensures { IfOk result (λ s. s ≡ subjects_or_name name.now copies.now subjects) }
{
    if !subjects.is_empty() || is_copy(copies) {
        return Ok(subjects);
    }
    let mut subjects = subjects;
    subjects.push(pattern_of_name(name)?)?;
    Ok(subjects)
}
