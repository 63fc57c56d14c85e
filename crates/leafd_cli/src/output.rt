ghost use Rattle.leafd_cli.specs.Outcome.{CountsWrite, Writes};

use crate::Status;
use leaf_edges::{EdgeError, Sink, pump_all};

/// Writes the whole report of a command.
pub fn write_report<O: Sink>(out: &mut O, report: &[u8]) -> Status
    ensures written { Writes (O.taken out.old) (O.taken out.new) report.now result }
    ensures write { CountsWrite (O.faults out.old) (O.faults out.new) result }
{
    match pump_all(out, report) {
        Ok(()) => Status::Done,
        Err(EdgeError::Failed) => Status::WriteFault,
        Err(EdgeError::NoMemory) => Status::NoMemory,
    }
}
