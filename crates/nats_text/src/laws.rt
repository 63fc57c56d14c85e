//! Laws of the definitions that the contracts of this crate cite. Each function does nothing: what it
//! ensures holds of all patterns, header blocks and messages.
ghost use Rattle.nats_text.specs.Laws.{MatchesItselfAlone, OverlapIsMet, OverlapIsSymmetric, WithinIsKept, WithinIsReflexive, WithinIsTransitive, ReadsBlocksAlone, TellsFirstBadLine, WritesBlocks, ReadsWhatIsWritten, SameHeadersAreEqual, SameMessagesAreEqual, SameParcelsAreEqual};

/// A pattern without wildcards matches one subject: itself.
pub fn literal_patterns()
    ensures { MatchesItselfAlone }
{}

/// Patterns overlap where some list of tokens matches both, in either order.
pub fn overlapping_patterns()
    ensures met { OverlapIsMet }
    ensures symmetric { OverlapIsSymmetric }
{}

/// A pattern is within another where each list of tokens that matches it matches the other; this is
/// reflexive and transitive.
pub fn nested_patterns()
    ensures kept { WithinIsKept }
    ensures reflexive { WithinIsReflexive }
    ensures transitive { WithinIsTransitive }
{}

/// Exactly the header blocks are read, the first bad line is told, and headers that are written are read again.
pub fn header_blocks()
    ensures reads { ReadsBlocksAlone }
    ensures tells { TellsFirstBadLine }
    ensures writes { WritesBlocks }
    ensures again { ReadsWhatIsWritten }
{}

/// Headers, messages and parcels that `==` takes for equal are equal.
pub fn equal_values()
    ensures headers { SameHeadersAreEqual }
    ensures messages { SameMessagesAreEqual }
    ensures parcels { SameParcelsAreEqual }
{}
