ghost use Rattle.std.specs.Prelude.{◌≡◌, IfOk};
ghost use Rattle.stream_fold.specs.Checking.{config_fault, IsFault};

use crate::wrong_member::{own_subjects, wrong_member};
use nats_text::{Bytes, List, Mapping, Name, NoMemory, Origin, Pattern};
use std::alloc::{AllocError, Global};
use thiserror::Error;

/// Which message goes where a limit is reached: the oldest, or the one that is published.
#[derive(Clone, Copy, Debug, PartialEq, Eq)]
pub enum Discard {
    Old,
    New,
}

/// Whether a stream is a copy, and of what.
#[derive(Debug, Drop, PartialEq)]
pub enum Copies {
    Nothing,
    /// The messages of one stream, under their own numbers.
    Mirror(Origin),
    /// The messages of several streams, under new numbers.
    Sources(List<Origin>),
}

/// The configuration of a stream. A limit of 0 is none. Ages and the duplicate window are in
/// nanoseconds, sizes in bytes.
#[derive(Debug, Drop, PartialEq)]
pub struct Config {
    pub name: Name,
    pub subjects: List<Pattern>,
    pub max_msgs: u64,
    pub max_bytes: u64,
    pub max_age: u64,
    pub max_per_subject: u64,
    pub max_msg_size: u64,
    pub discard: Discard,
    pub window: u64,
    pub transform: Option<Mapping>,
    pub copies: Copies,
}

/// Why a configuration isn't one that a stream may have.
#[derive(Debug, Drop, Error)]
pub enum ConfigFault {
    /// The first wrong member, by its name in JetStream.
    #[error("bad member")]
    Bad { member: Bytes },
    /// There was no memory.
    #[error("out of memory")]
    NoMemory,
}

impl From<NoMemory> for ConfigFault {
    ghost use Rattle.std.specs.Prelude.{◌≡◌};
    ghost use Rattle.stream_fold.specs.declared.config.ConfigFault.TheVariants.{NoMemory as NoRoom};

    ghost from_gives = { λ _ fault. fault ≡ NoRoom };

    fn from(_: NoMemory) -> ConfigFault {
        ConfigFault::NoMemory
    }
}

impl Config {
    /// Whether a stream may have this configuration, and the first member that is wrong otherwise.
    pub fn check(&self, alloc: Global) -> Result<(), ConfigFault>
        ensures { IsFault result (config_fault self.now) }
    {
        let own = own_subjects(alloc)?;
        match wrong_member(alloc, self, &own)? {
            None => Ok(()),
            Some(member) => {
                let member = Bytes::from_slice(alloc, member)?;
                Err(ConfigFault::Bad { member })
            }
        }
    }
}

impl Clone for Copies {
    ghost is_clone = { λ a b. b ≡ a };

    fn clone(&self) -> Result<Copies, AllocError> {
        match self {
            Copies::Nothing => Ok(Copies::Nothing),
            Copies::Mirror(origin) => Ok(Copies::Mirror(origin.clone()?)),
            Copies::Sources(origins) => Ok(Copies::Sources(origins.clone()?)),
        }
    }
}

impl Clone for Config {
    ghost is_clone = { λ a b. b ≡ a };

    fn clone(&self) -> Result<Config, AllocError> {
        let (name, subjects) = copied_texts(self)?;
        let (transform, copies) = copied_origins(self)?;
        Ok(Config {
            name,
            subjects,
            max_msgs: self.max_msgs,
            max_bytes: self.max_bytes,
            max_age: self.max_age,
            max_per_subject: self.max_per_subject,
            max_msg_size: self.max_msg_size,
            discard: self.discard,
            window: self.window,
            transform,
            copies,
        })
    }
}

fn copied_texts(config: &Config) -> Result<(Name, List<Pattern>), AllocError>
    ensures { IfOk result (λ texts. (texts.0 ≡ config.now.name) × (texts.1 ≡ config.now.subjects)) }
{
    let name = config.name.clone()?;
    Ok((name, config.subjects.clone()?))
}

fn copied_origins(config: &Config) -> Result<(Option<Mapping>, Copies), AllocError>
    ensures { IfOk result (λ origins. (origins.0 ≡ config.now.transform) × (origins.1 ≡ config.now.copies)) }
{
    let transform = config.transform.clone()?;
    Ok((transform, config.copies.clone()?))
}
