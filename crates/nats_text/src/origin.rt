use crate::{Bytes, List, Name, Pattern, Start};

/// The two texts of a subject transform.
#[derive(Clone, Debug, Drop, PartialEq)]
pub struct Mapping {
    pub src: Bytes,
    pub dest: Bytes,
}

/// What a copy takes: a stream, on another node where one is named, from a start on, and either
/// what a filter matches or what the first fitting map gives.
#[derive(Clone, Debug, Drop, PartialEq)]
pub struct Origin {
    pub node: Option<Name>,
    pub stream: Name,
    pub start: Start,
    pub filter: Option<Pattern>,
    pub maps: List<Mapping>,
}
