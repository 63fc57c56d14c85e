ghost use Rattle.std.specs.Prelude.{◌≡◌, ◌==◌};
ghost use Rattle.std.specs.Str.{bytes_eq};
ghost use Rattle.nats_text.specs.Pieces.{views};
ghost use Rattle.leafd_script.specs.Words.{Gives, has_empty, is_one_of, is_reserved, name_of, node_name_of, number_word, pattern_of, subject_of};

use crate::{LineFault, ScriptKind};
use nats_text::{Name, Pattern, Subject, TextFault, number};
use std::alloc::Global;

pub const NOT_YET: LineFault = LineFault::Bad {
    kind: ScriptKind::NotYet,
};

pub const BAD_LINE: LineFault = LineFault::Bad {
    kind: ScriptKind::BadLine,
};

const BAD_NAME: LineFault = LineFault::Bad {
    kind: ScriptKind::BadName,
};

const BAD_SUBJECT: LineFault = LineFault::Bad {
    kind: ScriptKind::BadSubject,
};

const BAD_NUMBER: LineFault = LineFault::Bad {
    kind: ScriptKind::BadNumber,
};

pub const BAD_OPTION: LineFault = LineFault::Bad {
    kind: ScriptKind::BadOption,
};

/// Whether a word is this text.
pub fn is_word(word: &[u8], text: &[u8]) -> bool
    ensures { result ≡ bytes_eq word.now text.now }
{
    word == text
}

/// Whether a word is one of these texts.
pub fn is_one_of(texts: &[&[u8]], word: &[u8]) -> bool
    ensures { result ≡ is_one_of (views texts.now) word.now }
{
    let mut rest = texts;
    while let [text, others @ ..] = rest {
        if is_word(word, text) {
            return true;
        }
        rest = others;
    }
    false
}

/// Whether some word is empty.
pub fn has_empty(words: &[&[u8]]) -> bool
    ensures { result ≡ has_empty (views words.now) }
{
    let mut rest = words;
    while let [word, others @ ..] = rest {
        if word.is_empty() {
            return true;
        }
        rest = others;
    }
    false
}

/// A name.
pub fn name_of(alloc: Global, word: &[u8]) -> Result<Name, LineFault>
    ensures { Gives result (name_of word.now) }
{
    match Name::read(alloc, word) {
        Ok(name) => Ok(name),
        Err(TextFault::Bad { .. }) => Err(BAD_NAME),
        Err(TextFault::NoMemory) => Err(LineFault::NoMemory),
    }
}

/// A name that a node may have.
pub fn node_name_of(alloc: Global, word: &[u8]) -> Result<Name, LineFault>
    ensures { Gives result (node_name_of word.now) }
{
    if is_reserved(word) {
        return Err(BAD_NAME);
    }
    name_of(alloc, word)
}

fn is_reserved(word: &[u8]) -> bool
    ensures { result ≡ is_reserved word.now }
{
    is_word(word, b"API") || is_word(word, b"M") || is_word(word, b"FC")
}

/// A subject.
pub fn subject_of(alloc: Global, word: &[u8]) -> Result<Subject, LineFault>
    ensures { Gives result (subject_of word.now) }
{
    match Subject::read(alloc, word) {
        Ok(subject) => Ok(subject),
        Err(TextFault::Bad { .. }) => Err(BAD_SUBJECT),
        Err(TextFault::NoMemory) => Err(LineFault::NoMemory),
    }
}

/// A pattern.
pub fn pattern_of(alloc: Global, word: &[u8]) -> Result<Pattern, LineFault>
    ensures { Gives result (pattern_of word.now) }
{
    match Pattern::read(alloc, word) {
        Ok(pattern) => Ok(pattern),
        Err(TextFault::Bad { .. }) => Err(BAD_SUBJECT),
        Err(TextFault::NoMemory) => Err(LineFault::NoMemory),
    }
}

/// A number.
pub fn number_word(word: &[u8]) -> Result<u64, LineFault>
    ensures { Gives result (number_word word.now) }
{
    match number(word) {
        Some(value) => Ok(value),
        None => Err(BAD_NUMBER),
    }
}
