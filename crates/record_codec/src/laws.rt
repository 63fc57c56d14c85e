//! Laws of the definitions that the contracts of this crate cite. The function does nothing: what it
//! ensures holds of all bytes and records.
ghost use Rattle.record_codec.specs.Laws.{ReadsSpellingsAlone, ReadsWhatIsSpelled, HasOneSpelling, SpellsOneRecord};

/// Exactly the spellings of records are read, each record has one spelling, and no two records have the
/// same.
pub fn one_spelling()
    ensures alone { ReadsSpellingsAlone }
    ensures again { ReadsWhatIsSpelled }
    ensures one { HasOneSpelling }
    ensures apart { SpellsOneRecord }
{}
