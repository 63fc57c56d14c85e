ghost use Rattle.leaf_edges.specs.Causes.{Causes, Pumps};

use crate::{EdgeError, Sink};

/// Writes all the bytes. At `Err` a prefix of them has been written; `Failed` comes only where the
/// sink's count of faults rose.
pub fn pump_all<S: Sink>(sink: &mut S, bytes: &[u8]) -> Result<(), EdgeError>
    ensures bytes { Pumps (S.taken sink.old) (S.taken sink.new) result bytes.now }
    ensures cause { Causes (S.faults sink.old) (S.faults sink.new) result }
{
    let mut rest = bytes;
    while !rest.is_empty() {
        let count = match sink.write(rest) {
            Ok(0) => return Err(EdgeError::Failed),
            Ok(count) => count,
            Err(error) => return Err(error),
        };
        rest = &rest[count..];
    }
    Ok(())
}
