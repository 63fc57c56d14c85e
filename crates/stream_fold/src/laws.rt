//! Laws of the definitions that the contracts of this crate cite. Each function does nothing: what it
//! ensures holds of all histories.
ghost use Rattle.stream_fold.specs.Laws.{HolesStay, PutsStay, FittingRise, KeptRise, KeptAreReached, KeptWerePut, MirrorsOutlast, MirrorsStay, MirrorsStore, SourcesOutlast, SourcesStay, SourcesBind, SourcesStore};
ghost use Rattle.stream_fold.specs.Laws.{HolesStay, PutsStay, FittingRise, KeptRise, KeptAreReached, KeptWerePut};
ghost use Rattle.stream_fold.specs.FactLaws.{FactsGrow, FactsTell, FactsTellFits, FactsTellRepeats, FactsTellVerdicts, FactsHoldOpen, FittingKeepWindow, StatesShowFacts, ShownFactsGrow, FactsSuffice, SentWerePut};

/// Where the numbers of the Puts rise, what was removed never comes back, and no number that was
/// reached gets another message.
pub fn longer_histories()
    ensures holes { HolesStay }
    ensures puts { PutsStay }
{}

/// Where each entry fits those before it, the numbers of the Puts rise. Then the numbers of the kept
/// messages rise strictly up to the last one, and each kept message was put under its number.
pub fn kept_messages()
    ensures fitting { FittingRise }
    ensures rise { KeptRise }
    ensures reached { KeptAreReached }
    ensures put { KeptWerePut }
{}

/// What a mirror or a source holds of its origin it holds as the origin grows, where the numbers of the
/// origin's Puts rise.
pub fn growing_origins()
    ensures mirrors { MirrorsOutlast }
    ensures sources { SourcesOutlast }
{}

/// What a mirror holds stays with each entry of it that is no Put, and with a Put of the message that
/// comes next.
pub fn growing_mirrors()
    ensures passed { MirrorsStay }
    ensures stored { MirrorsStore }
{}

/// What a source holds stays with each entry of its copy that is none of its index, with its Bind where
/// nothing was stored yet, and with a Put of the message that comes next.
pub fn growing_sources()
    ensures passed { SourcesStay }
    ensures bound { SourcesBind }
    ensures stored { SourcesStore }
{}

/// The facts of a history answer what is asked of it, and after one entry more they are a function of
/// what they were. So whoever holds the facts needs no entry again.
pub fn facts_of_histories()
    ensures grow { FactsGrow }
    ensures tell { FactsTell }
    ensures fits { FactsTellFits }
{}

/// Where the duplicate window stays what it was, as it does where each entry fits those before it,
/// the facts answer each publish too: they have all that a publish can still repeat.
pub fn facts_of_publishes()
    ensures repeats { FactsTellRepeats }
    ensures verdicts { FactsTellVerdicts }
    ensures held { FactsHoldOpen }
    ensures put { SentWerePut }
    ensures keep { FittingKeepWindow }
{}

/// What a state shows gives the facts of each history for which it stands, before and after an entry.
/// A state stands for all histories that have its facts.
pub fn facts_of_states()
    ensures show { StatesShowFacts }
    ensures grow { ShownFactsGrow }
    ensures suffice { FactsSuffice }
{}
