//! Laws of the words. Each is a function that does nothing, and whose contract is the law.
ghost use Rattle.leafd_words.specs.Laws.{EachValueIsThere};

/// Where the reading takes the words, each value of the command is among them: none counts as empty
/// for want of a word.
pub fn values()
    ensures { EachValueIsThere }
{}
