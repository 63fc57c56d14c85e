ghost use Rattle.std.specs.Prelude.{◌≡◌};
ghost use Rattle.toml.specs.View.{table_view};
ghost use Rattle.leafd_conf.specs.Profile.{Gives};
ghost use Rattle.leafd_conf.specs.Confs.{conf_of, conf_in, fields_in};

use crate::mappings::mappings;
use crate::member::{TextRule, first_other, node_name, optional, problem, required};
use crate::{ConfKind, ConfProblem};
use nats_text::{Bytes, List, Mapping, Name};
use std::alloc::Global;
use toml::Table;

/// The members that a configuration may have.
const MEMBERS: [&str; 6] = ["name", "store", "listen", "leaf_listen", "hub", "mappings"];

/// The configuration of a node. It is a hub where it has `leaf_listen`, and a leaf where it has `hub`: it
/// has just one of these.
#[derive(Debug, Drop)]
pub struct Conf {
    /// The name of the node, which isn't `API`, `M` or `FC`.
    pub name: Name,
    /// The folder of its store.
    pub store: Bytes,
    /// The address at which it listens for clients: one or more bytes, then `:` and a port.
    pub listen: Bytes,
    /// The address at which a hub listens for leaves.
    pub leaf_listen: Option<Bytes>,
    /// The address of a leaf's hub.
    pub hub: Option<Bytes>,
    /// The transforms of the subjects of its clients, in the order in which they are tried.
    pub mappings: List<Mapping>,
}

/// Reads a configuration file, a TOML table with the members `name`, `store`, `listen`, one of
/// `leaf_listen` and `hub`, and maybe `mappings`.
///
/// `Bad` comes exactly where the text isn't such a file, with the first fault: `Syntax` where it is no TOML;
/// `Unknown` with the first other member in the order of bytes; `Missing` or `BadValue` with the first
/// member above that isn't there or has a bad value; and `BadValue` with `hub` where both or neither of `leaf_listen` and `hub`
/// are there.
#[tactic(auto, unfolding(crate::specs::Confs::conf_of))]
pub fn read_conf(alloc: Global, bytes: &[u8]) -> Result<Conf, ConfProblem>
    ensures { Gives result (conf_of bytes.now) }
{
    match toml::table_from_slice(alloc, bytes) {
        Ok(table) => conf_in(alloc, &table),
        Err(error) => {
            if error.is_memory() {
                Err(ConfProblem::NoMemory)
            } else {
                Err(problem(alloc, ConfKind::Syntax, ""))
            }
        }
    }
}

fn conf_in(alloc: Global, table: &Table) -> Result<Conf, ConfProblem>
    ensures { Gives result (conf_in (table_view table.now)) }
{
    if let Some(other) = first_other(table, &MEMBERS) {
        return Err(problem(alloc, ConfKind::Unknown, other));
    }
    let conf = fields_in(alloc, table)?;
    if conf.leaf_listen.is_some() == conf.hub.is_some() {
        return Err(problem(alloc, ConfKind::BadValue, "hub"));
    }
    Ok(conf)
}

/// The members of a configuration, each by its own kind.
fn fields_in(alloc: Global, table: &Table) -> Result<Conf, ConfProblem>
    ensures { Gives result (fields_in (table_view table.now)) }
{
    let name = node_name(alloc, table)?;
    let store = required(alloc, table, "store", TextRule::Any)?;
    let listen = required(alloc, table, "listen", TextRule::Address)?;
    let leaf_listen = optional(alloc, table, "leaf_listen")?;
    let hub = optional(alloc, table, "hub")?;
    let mappings = mappings(alloc, table)?;
    Ok(Conf {
        name,
        store,
        listen,
        leaf_listen,
        hub,
        mappings,
    })
}
