//! Transforms of subjects: a source pattern and a destination whose functions take what the
//! wildcards of the source took (subject mapping and transforms of NATS), and the subjects of the
//! domains of JetStream.
#![tactic(auto)]

mod argument;
mod destination;
mod domain;
mod dots;
mod fault;
mod function;
pub mod laws;
mod mappings;
mod part;
mod split;
mod taken;
mod transform;
mod value;

pub use domain::DomainMap;
pub use fault::{TransformFault, TransformKind};
pub use mappings::Mappings;
pub use transform::Transform;
