ghost use Rattle.std.specs.Prelude.{◌≡◌, ◌↔◌, IsTrue};

use crate::Copies;
use nats_text::{Mapping, Origin};

/// Whether two streams copy the same.
pub fn same_copies(a: &Copies, b: &Copies) -> bool
    ensures { IsTrue result ↔ (a.now ≡ b.now) }
{
    match (a, b) {
        (Copies::Nothing, Copies::Nothing) => true,
        (Copies::Mirror(origin), Copies::Mirror(other)) => same_origin(origin, other),
        (Copies::Sources(origins), Copies::Sources(others)) => {
            same_origins(origins.as_slice(), others.as_slice())
        }
        _ => false,
    }
}

fn same_origins(origins: &[Origin], others: &[Origin]) -> bool
    ensures { IsTrue result ↔ (origins.now ≡ others.now) }
{
    if origins.len() != others.len() {
        return false;
    }
    for place in 0..origins.len() {
        if !same_origin(&origins[place], &others[place]) {
            return false;
        }
    }
    true
}

fn same_origin(origin: &Origin, other: &Origin) -> bool
    ensures { IsTrue result ↔ (origin.now ≡ other.now) }
{
    origin.node == other.node
        && origin.stream == other.stream
        && origin.start == other.start
        && origin.filter == other.filter
        && same_maps(origin.maps.as_slice(), other.maps.as_slice())
}

fn same_maps(maps: &[Mapping], others: &[Mapping]) -> bool
    ensures { IsTrue result ↔ (maps.now ≡ others.now) }
{
    if maps.len() != others.len() {
        return false;
    }
    for place in 0..maps.len() {
        if !same_map(&maps[place], &others[place]) {
            return false;
        }
    }
    true
}

fn same_map(map: &Mapping, other: &Mapping) -> bool
    ensures { IsTrue result ↔ (map.now ≡ other.now) }
{
    map.src == other.src && map.dest == other.dest
}
