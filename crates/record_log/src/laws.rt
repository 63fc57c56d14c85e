//! Laws of the definitions that the contracts of this crate cite. The function does nothing: what it ensures holds
//! of whatever two disks hold.
ghost use Rattle.record_log.specs.Laws.{RecordsAreShort};

use record_codec::laws::one_spelling;

/// No record of a log for which two disks stand has more than 2,097,152 bytes.
pub fn records_are_short()
    ensures { RecordsAreShort }
{
    one_spelling();
}
