//! Words with numbers behind them.
use nats_text::NoMemory;
use std::alloc::Global;

/// A word, and up to two numbers behind it.
#[derive(Clone, Copy)]
pub struct Said {
    word: &'static str,
    first: Option<u64>,
    second: Option<u64>,
}

pub fn word(word: &'static str) -> Said {
    Said {
        word,
        first: None,
        second: None,
    }
}

pub fn numbers(word: &'static str, first: u64, second: Option<u64>) -> Said {
    Said {
        word,
        first: Some(first),
        second,
    }
}

/// Adds the word and its numbers, with a space before each number.
pub fn say(alloc: Global, text: &mut String, it: Said) -> Result<(), NoMemory> {
    text.push_str(it.word)?;
    push_number(alloc, text, it.first)?;
    push_number(alloc, text, it.second)
}

fn push_number(alloc: Global, text: &mut String, number: Option<u64>) -> Result<(), NoMemory> {
    if let Some(number) = number {
        let digits = format!(in alloc; " {number}")?;
        text.push_str(digits.as_str())?;
    }
    Ok(())
}
