ghost use Rattle.std.specs.Prelude.{◌≡◌};
ghost use Rattle.config_json.specs.Answers.{IsFaultOf};

use nats_text::{Bytes, NoMemory};
use std::alloc::Global;
use thiserror::Error;

/// Why a request of JetStream's API isn't carried out.
#[derive(Debug, Drop, Error)]
pub enum ApiFault {
    /// The payload isn't what the request takes.
    #[error("bad request")]
    BadRequest,
    /// The first member of a configuration that is wrong, by its name.
    #[error("bad member")]
    BadConfig { member: Bytes },
    /// Consumers aren't made by clients.
    #[error("consumers are internal")]
    NotForClients,
    /// The subject is none of the API.
    #[error("no subject of the API")]
    NotApi,
    /// There was no memory.
    #[error("out of memory")]
    NoMemory,
}

impl From<NoMemory> for ApiFault {
    ghost use Rattle.std.specs.Prelude.{◌≡◌};
    ghost use Rattle.config_json.specs.declared.fault.ApiFault.TheVariants.{NoMemory as NoRoom};

    ghost from_gives = { λ _ fault. fault ≡ NoRoom };

    fn from(_: NoMemory) -> ApiFault {
        ApiFault::NoMemory
    }
}

/// This member is wrong.
pub(crate) fn bad(alloc: Global, member: &str) -> ApiFault
    ensures { IsFaultOf result member.now }
{
    match Bytes::from_slice(alloc, member.as_bytes()) {
        Ok(member) => ApiFault::BadConfig { member },
        Err(NoMemory) => ApiFault::NoMemory,
    }
}
