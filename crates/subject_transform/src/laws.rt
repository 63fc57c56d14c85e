//! Laws of the definitions that the contracts of this crate cite. Each function does nothing: what it
//! ensures holds of all transforms and subjects.
ghost use Rattle.subject_transform.specs.Laws.{TailKeepsSubjects, MakesSubjects, PiecesAreTheToken, PartitionIsBelow};

/// The transform of `>` into `>` gives each subject back, and every transform gives subjects alone.
pub fn subjects()
    ensures kept { TailKeepsSubjects }
    ensures made { MakesSubjects }
{}

/// The pieces of a split or a slice by length, put together, are the token.
pub fn pieces()
    ensures { PiecesAreTheToken }
{}

/// The number of a partition is below their count.
pub fn partitions()
    ensures { PartitionIsBelow }
{}
