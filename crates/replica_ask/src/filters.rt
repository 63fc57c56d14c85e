ghost use Rattle.std.specs.Prelude.{◌≡◌, IfOk};
ghost use Rattle.replica_ask.specs.Filters.{filters_of, pattern_of, sources_of};

use nats_text::{List, Mapping, NoMemory, Origin, Pattern, TextFault};
use std::alloc::Global;

/// The subjects that a copy of the origin asks for: what its filter matches, or else what the sources
/// of its maps match, or else all, which is the empty list.
pub fn filters_of(alloc: Global, want: &Origin) -> Result<List<Pattern>, NoMemory>
    ensures { IfOk result (λ filters. filters ≡ filters_of want.now) }
{
    match &want.filter {
        Some(pattern) => {
            let mut filters = List::new(alloc);
            filters.push(pattern.clone()?)?;
            Ok(filters)
        }
        None => sources_of(alloc, want.maps.as_slice()),
    }
}

fn sources_of(alloc: Global, maps: &[Mapping]) -> Result<List<Pattern>, NoMemory>
    ensures { IfOk result (λ filters. filters ≡ sources_of maps.now) }
{
    let mut filters = List::new(alloc);
    for map in maps {
        if let Some(pattern) = pattern_of(alloc, map.src.as_slice())? {
            filters.push(pattern)?;
        }
    }
    Ok(filters)
}

fn pattern_of(alloc: Global, bytes: &[u8]) -> Result<Option<Pattern>, NoMemory>
    ensures { IfOk result (λ pattern. pattern ≡ pattern_of bytes.now) }
{
    match Pattern::read(alloc, bytes) {
        Ok(pattern) => Ok(Some(pattern)),
        Err(TextFault::Bad { .. }) => Ok(None),
        Err(TextFault::NoMemory) => Err(NoMemory),
    }
}
