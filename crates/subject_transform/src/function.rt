//! The functions that a destination may call.
ghost use Rattle.std.specs.Prelude.{◌≡◌};
ghost use Rattle.std.specs.Str.{str_eq_ignore_ascii_case};
ghost use Rattle.subject_transform.specs.Parts.{function_named};

/// Where a function puts dots into a token.
#[derive(Clone, Copy)]
pub(crate) enum Dots {
    /// One, behind so many characters.
    SplitFromLeft,
    /// One, before the last so many characters.
    SplitFromRight,
    /// Behind each so many characters, counted from the left.
    SliceFromLeft,
    /// Before each so many characters, counted from the right.
    SliceFromRight,
}

/// A function by its name.
#[derive(Clone, Copy)]
pub(crate) enum Function {
    Wildcard,
    Partition,
    Split,
    Dotted(Dots),
}

impl Function {
    /// The function of this name, without regard to ASCII case.
    pub fn named(name: &[u8]) -> Option<Function>
        ensures { result ≡ function_named name.now }
    {
        if is_word(name, b"wildcard") {
            Some(Function::Wildcard)
        } else if is_word(name, b"partition") {
            Some(Function::Partition)
        } else if is_word(name, b"split") {
            Some(Function::Split)
        } else if is_word(name, b"splitfromleft") {
            Some(Function::Dotted(Dots::SplitFromLeft))
        } else if is_word(name, b"splitfromright") {
            Some(Function::Dotted(Dots::SplitFromRight))
        } else if is_word(name, b"slicefromleft") {
            Some(Function::Dotted(Dots::SliceFromLeft))
        } else if is_word(name, b"slicefromright") {
            Some(Function::Dotted(Dots::SliceFromRight))
        } else {
            None
        }
    }
}

// Whether a name is this word, without regard to ASCII case.
fn is_word(name: &[u8], word: &[u8]) -> bool
    ensures { result ≡ str_eq_ignore_ascii_case name.now word.now }
{
    name.eq_ignore_ascii_case(word)
}
