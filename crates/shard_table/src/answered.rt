ghost use Rattle.std.specs.Prelude.{◌≡◌};
ghost use Rattle.shard_machine.specs.Steps.{entry_of};
ghost use Rattle.shard_machine.specs.Views.{View, Effect};
ghost use Rattle.shard_machine.specs.declared.call.ShardCall.{ShardCall as Called};

use nats_text::{List, Name};
use record_codec::Rec;
use shard_copies::Asking;
use shard_machine::{Outcome, ShardReply};
use shard_streams::{PreparedCreate, PreparedEntry};
use stream_fold::{Decision, Entry};
use tap_row::Notice;

/// What a table answers.
#[derive(Drop)]
pub enum Answered {
    /// The call makes no record, and is done.
    Done(ShardReply),
    /// The call is done once its record is in the journal.
    Append(Prepared),
}

/// What is ready for a call that makes a record. All its memory is taken.
#[derive(Drop)]
pub enum Prepared {
    /// An entry of a stream.
    Writes {
        entry: PreparedEntry,
        outcome: Outcome,
    },
    /// An entry that a copy stores.
    Stores {
        entry: PreparedEntry,
        decision: Decision,
    },
    /// An entry by which a copy is bound, and what the taps are told of it.
    Binds {
        entry: PreparedEntry,
        decision: Decision,
        notices: List<Notice>,
    },
    /// A stream, and what its copies ask.
    Makes {
        stream: PreparedCreate,
        asking: Asking,
    },
    /// A stream that goes.
    Takes {
        name: Name,
        removal: Rec,
    },
}

impl Prepared {
    ghost use Rattle.shard_table.specs.Answering.{record_in, IsPrepared};
    ghost use Rattle.shard_table.specs.declared.table.Table.{Table as Held};

    /// The record to append.
    pub fn record(&self) -> &Rec
        ensures { result.now ≡ record_in self.now }
    {
        match self {
            Prepared::Writes { entry, .. } => entry.record(),
            Prepared::Stores { entry, .. } => entry.record(),
            Prepared::Binds { entry, .. } => entry.record(),
            Prepared::Makes { stream, .. } => stream.record(),
            Prepared::Takes { removal, .. } => removal,
        }
    }

    /// The record, where it isn't known whether the journal has it, and its entry, if it is one of a
    /// stream's history. It takes no memory.
    pub fn into_doubt(self) -> (Rec, Option<Entry>)
        ensures rec { result.0 ≡ record_in self }
        ensures entry { (t : Held) (v : View) (called : Called) (e : Effect) → IsPrepared t self v called e → result.1 ≡ entry_of (record_in self) }
    {
        match self {
            Prepared::Writes { entry, outcome } => {
                drop(outcome);
                doubt_of(entry)
            }
            Prepared::Stores { entry, decision } => {
                drop(decision);
                doubt_of(entry)
            }
            Prepared::Binds {
                entry,
                decision,
                notices,
            } => {
                drop(decision);
                drop(notices);
                doubt_of(entry)
            }
            Prepared::Makes { stream, asking } => {
                drop(asking);
                (stream.into_doubt(), None)
            }
            Prepared::Takes { name, removal } => {
                drop(name);
                (removal, None)
            }
        }
    }
}

fn doubt_of(entry: PreparedEntry) -> (Rec, Option<Entry>)
    ensures rec { result.0 ≡ entry.rec }
    ensures entry { result.1 ≡ Some entry.copy }
{
    let (record, entry) = entry.into_doubt();
    (record, Some(entry))
}
