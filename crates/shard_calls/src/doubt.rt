ghost use Rattle.std.specs.Prelude.{◌≡◌, None, IfOk};
ghost use Rattle.shard_machine.specs.Steps.{entry_in_doubt, entry_of};
ghost use Rattle.shard_calls.specs.Failing.{failure};

use nats_text::NoMemory;
use record_codec::Rec;
use record_log::OpenFault;
use shard_machine::ShardRefusal;
use stream_fold::Entry;

/// Why a call that has to load first did nothing, and the entry that is in doubt then.
#[derive(Drop)]
pub(crate) struct Failure {
    pub why: ShardRefusal,
    pub doubted: Option<Entry>,
}

/// A copy of the entry of the record in doubt, where it is one of a stream's history.
pub(crate) fn doubted_entry(doubt: &Option<Rec>) -> Result<Option<Entry>, NoMemory>
    ensures { IfOk result (λ entry. entry ≡ entry_in_doubt doubt.now) }
{
    match doubt {
        None => Ok(None),
        Some(it) => entry_of(it),
    }
}

fn entry_of(it: &Rec) -> Result<Option<Entry>, NoMemory>
    ensures { IfOk result (λ entry. entry ≡ entry_of it.now) }
{
    match it {
        Rec::Boot { .. } => Ok(None),
        Rec::Create { .. } => Ok(None),
        Rec::Remove { .. } => Ok(None),
        Rec::Of { entry, .. } => Ok(Some(entry.clone()?)),
    }
}

/// What a call is refused that could not read the disks; the record in doubt stays so.
pub(crate) fn not_opened(fault: OpenFault, doubted: Option<Entry>) -> Failure
    ensures { result ≡ failure fault doubted }
{
    match fault {
        OpenFault::ReadFault => Failure {
            why: ShardRefusal::DiskFault,
            doubted,
        },
        OpenFault::SyncFault => Failure {
            why: ShardRefusal::DiskFault,
            doubted,
        },
        OpenFault::BadJournal { place } => Failure {
            why: ShardRefusal::BadJournal { place },
            doubted: None,
        },
        OpenFault::TooLong { len } => Failure {
            why: ShardRefusal::JournalFull { end: len, need: 0 },
            doubted: None,
        },
        OpenFault::NoMemory => Failure {
            why: ShardRefusal::NoMemory,
            doubted: None,
        },
    }
}

/// A refusal where no entry of a stream's history is in doubt.
pub(crate) fn refusing(why: ShardRefusal) -> Failure
    ensures { result ≡ record { why = why; doubted = None } }
{
    Failure { why, doubted: None }
}
