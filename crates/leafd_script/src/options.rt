ghost use Rattle.std.specs.Prelude.{◌≡◌, IfOk, None, Some};
ghost use Rattle.std.specs.List.{list_any, list_all};
ghost use Rattle.std.specs.Option.{option_copied};
ghost use Rattle.nats_text.specs.Pieces.{views};
ghost use Rattle.stream_fold.specs.Checking.{config_fault};
ghost use Rattle.leafd_script.specs.Words.{Gives};
ghost use Rattle.leafd_script.specs.Options.{begins, begins_one_of, later_options, has_later, change_options, mirror_options, stream_options, is_twice, are_options, fits, value_of, number_value, number_option, discard_value, changes_of, window_of, pattern_option, patterns_of, subjects_of, or_zero, or_old, default_window, window_or_default, config_of, origin_of, checked};

use crate::words::{BAD_OPTION, has_empty, is_word};
use crate::{Changes, LineFault};
use nats_text::{List, Name, Origin, Pattern, Start, TextFault, number, pieces};
use std::alloc::Global;
use stream_fold::{Config, ConfigFault, Copies, Discard};

/// The duplicate window of a stream where none is named, in nanoseconds (JetStream's two minutes).
const DEFAULT_WINDOW: u64 = 120_000_000_000;

/// Whether a word begins with this name.
fn begins(name: &[u8], word: &[u8]) -> bool
    ensures { result ≡ begins name.now word.now }
{
    word.len() >= name.len() && is_word(&word[..name.len()], name)
}

fn begins_one_of(names: &[&[u8]], word: &[u8]) -> bool
    ensures { result ≡ begins_one_of (views names.now) word.now }
{
    let mut rest = names;
    while let [name, others @ ..] = rest {
        if begins(name, word) {
            return true;
        }
        rest = others;
    }
    false
}

/// Whether some word names an option that isn't built yet.
pub fn has_later(words: &[&[u8]]) -> bool
    ensures { result ≡ has_later (views words.now) }
{
    some_begins(
        &[b"transform=", b"start=", b"filter=", b"map=", b"from="],
        words,
    )
}

fn some_begins(names: &[&[u8]], words: &[&[u8]]) -> bool
    ensures { result ≡ list_any (begins_one_of (views names.now)) (views words.now) }
{
    let mut rest = words;
    while let [word, others @ ..] = rest {
        if begins_one_of(names, word) {
            return true;
        }
        rest = others;
    }
    false
}

/// Whether no word of a line is empty, and those where options stand may stand in a `stream`.
pub fn fits_stream(args: &[&[u8]], options: &[&[u8]]) -> bool
    ensures { result ≡ fits stream_options (views args.now) (views options.now) }
{
    !has_empty(args)
        && are_options(
            &[
                b"subjects=",
                b"window=",
                b"max_msgs=",
                b"max_bytes=",
                b"max_age=",
                b"max_per_subject=",
                b"max_msg_size=",
                b"discard=",
            ],
            options,
        )
}

/// The same for a `mirror`.
pub fn fits_mirror(args: &[&[u8]], options: &[&[u8]]) -> bool
    ensures { result ≡ fits mirror_options (views args.now) (views options.now) }
{
    !has_empty(args)
        && are_options(
            &[
                b"window=",
                b"max_msgs=",
                b"max_bytes=",
                b"max_age=",
                b"max_per_subject=",
                b"max_msg_size=",
                b"discard=",
            ],
            options,
        )
}

/// The same for an `update`.
pub fn fits_update(args: &[&[u8]], options: &[&[u8]]) -> bool
    ensures { result ≡ fits change_options (views args.now) (views options.now) }
{
    !has_empty(args)
        && are_options(
            &[
                b"max_msgs=",
                b"max_bytes=",
                b"max_age=",
                b"max_per_subject=",
                b"max_msg_size=",
                b"discard=",
            ],
            options,
        )
}

fn are_options(names: &[&[u8]], words: &[&[u8]]) -> bool
    ensures { result ≡ are_options (views names.now) (views words.now) }
{
    all_begin(names, words) && !some_twice(names, words)
}

fn all_begin(names: &[&[u8]], words: &[&[u8]]) -> bool
    ensures { result ≡ list_all (begins_one_of (views names.now)) (views words.now) }
{
    let mut rest = words;
    while let [word, others @ ..] = rest {
        if !begins_one_of(names, word) {
            return false;
        }
        rest = others;
    }
    true
}

fn some_twice(names: &[&[u8]], words: &[&[u8]]) -> bool
    ensures { result ≡ list_any (λ name. is_twice name (views words.now)) (views names.now) }
{
    let mut rest = names;
    while let [name, others @ ..] = rest {
        if is_twice(name, words) {
            return true;
        }
        rest = others;
    }
    false
}

fn is_twice(name: &[u8], words: &[&[u8]]) -> bool
    ensures { result ≡ is_twice name.now (views words.now) }
{
    let mut rest = words;
    while let [word, others @ ..] = rest {
        if begins(name, word) {
            return any_begins(name, others);
        }
        rest = others;
    }
    false
}

fn any_begins(name: &[u8], words: &[&[u8]]) -> bool
    ensures { result ≡ list_any (begins name.now) (views words.now) }
{
    let mut rest = words;
    while let [word, others @ ..] = rest {
        if begins(name, word) {
            return true;
        }
        rest = others;
    }
    false
}

/// What stands behind this name in the first word that begins with it.
fn value_of<'a>(name: &[u8], words: &[&'a [u8]]) -> Option<&'a [u8]>
    ensures { option_copied result ≡ value_of name.now (views words.now) }
{
    let mut rest = words;
    while let [word, others @ ..] = rest {
        if begins(name, word) {
            return Some(&word[name.len()..]);
        }
        rest = others;
    }
    None
}

fn number_option(name: &[u8], options: &[&[u8]]) -> Result<Option<u64>, LineFault>
    ensures { Gives result (number_option name.now (views options.now)) }
{
    number_value(value_of(name, options))
}

fn number_value(value: Option<&[u8]>) -> Result<Option<u64>, LineFault>
    ensures { Gives result (number_value (option_copied value.entry)) }
{
    let Some(digits) = value else {
        return Ok(None);
    };
    match number(digits) {
        Some(value) => Ok(Some(value)),
        None => Err(BAD_OPTION),
    }
}

fn discard_value(value: Option<&[u8]>) -> Result<Option<Discard>, LineFault>
    ensures { Gives result (discard_value (option_copied value.entry)) }
{
    let Some(word) = value else {
        return Ok(None);
    };
    if is_word(word, b"old") {
        Ok(Some(Discard::Old))
    } else if is_word(word, b"new") {
        Ok(Some(Discard::New))
    } else {
        Err(BAD_OPTION)
    }
}

/// The limits that the options name.
pub fn changes_of(options: &[&[u8]]) -> Result<Changes, LineFault>
    ensures { Gives result (changes_of (views options.now)) }
{
    let max_msgs = number_option(b"max_msgs=", options)?;
    let max_bytes = number_option(b"max_bytes=", options)?;
    let max_age = number_option(b"max_age=", options)?;
    let max_per_subject = number_option(b"max_per_subject=", options)?;
    let max_msg_size = number_option(b"max_msg_size=", options)?;
    let discard = discard_value(value_of(b"discard=", options))?;
    Ok(Changes {
        max_msgs,
        max_bytes,
        max_age,
        max_per_subject,
        max_msg_size,
        discard,
    })
}

/// The duplicate window that the options name.
pub fn window_of(options: &[&[u8]]) -> Result<Option<u64>, LineFault>
    ensures { Gives result (window_of (views options.now)) }
{
    number_option(b"window=", options)
}

/// The subjects that the options name, or the name of the stream.
pub fn subjects_of(
    alloc: Global,
    name: &[u8],
    options: &[&[u8]],
) -> Result<List<Pattern>, LineFault>
    ensures { Gives result (subjects_of name.now (views options.now)) }
{
    match value_of(b"subjects=", options) {
        Some(value) => patterns_of(alloc, &pieces(alloc, value, b',')?),
        None => patterns_of(alloc, &[name]),
    }
}

fn patterns_of(alloc: Global, words: &[&[u8]]) -> Result<List<Pattern>, LineFault>
    ensures { Gives result (patterns_of (views words.now)) }
{
    let mut patterns = List::new(alloc);
    let mut rest = words;
    while let [word, others @ ..] = rest {
        patterns.push(pattern_option(alloc, word)?)?;
        rest = others;
    }
    Ok(patterns)
}

fn pattern_option(alloc: Global, word: &[u8]) -> Result<Pattern, LineFault>
    ensures { Gives result (pattern_option word.now) }
{
    match Pattern::read(alloc, word) {
        Ok(pattern) => Ok(pattern),
        Err(TextFault::Bad { .. }) => Err(BAD_OPTION),
        Err(TextFault::NoMemory) => Err(LineFault::NoMemory),
    }
}

/// The configuration of a stream. Limits that aren't named are none.
pub fn config_of(
    name: Name,
    subjects: List<Pattern>,
    changes: Changes,
    window: Option<u64>,
    copies: Copies,
) -> Config
    ensures { result ≡ config_of name subjects changes window copies }
{
    let max_age = or_zero(changes.max_age);
    Config {
        name,
        subjects,
        max_msgs: or_zero(changes.max_msgs),
        max_bytes: or_zero(changes.max_bytes),
        max_age,
        max_per_subject: or_zero(changes.max_per_subject),
        max_msg_size: or_zero(changes.max_msg_size),
        discard: or_old(changes.discard),
        window: window_or_default(or_zero(window), max_age),
        transform: None,
        copies,
    }
}

fn or_zero(limit: Option<u64>) -> u64
    ensures { result ≡ or_zero limit }
{
    match limit {
        Some(limit) => limit,
        None => 0,
    }
}

fn or_old(discard: Option<Discard>) -> Discard
    ensures { result ≡ or_old discard }
{
    match discard {
        Some(discard) => discard,
        None => Discard::Old,
    }
}

fn window_or_default(window: u64, max_age: u64) -> u64
    ensures { result ≡ window_or_default window max_age }
{
    if window == 0 {
        default_window(max_age)
    } else {
        window
    }
}

fn default_window(max_age: u64) -> u64
    ensures { result ≡ default_window max_age }
{
    if max_age != 0 && max_age < DEFAULT_WINDOW {
        max_age
    } else {
        DEFAULT_WINDOW
    }
}

/// All of a stream on another node, from its first message on.
pub fn origin_of(alloc: Global, node: Name, stream: Name) -> Origin
    ensures { result ≡ origin_of node stream }
{
    Origin {
        node: Some(node),
        stream,
        start: Start::Seq(1),
        filter: None,
        maps: List::new(alloc),
    }
}

/// A configuration that a stream may have.
#[tactic(auto, unfolding(crate::specs::Options::checked))]
pub fn checked(alloc: Global, config: Config) -> Result<Config, LineFault>
    ensures gives { Gives result (checked config) }
    ensures same { IfOk result (λ it. it ≡ config) }
    ensures right { IfOk result (λ it. config_fault it ≡ None) }
{
    match config.check(alloc) {
        Ok(()) => Ok(config),
        Err(ConfigFault::Bad { .. }) => Err(BAD_OPTION),
        Err(ConfigFault::NoMemory) => Err(LineFault::NoMemory),
    }
}
