ghost use Rattle.std.specs.Prelude.{◌≡◌, Some, false, IsTrue, IfOk, map, option_map, string_bytes};
ghost use Rattle.clap.specs.Matches.{found_of};
ghost use Rattle.clap.specs.Simple.{subcommand_rows_of};
ghost use Rattle.clap.specs.Walk.{rows_of};
ghost use Rattle.leafd_words.specs.Commands.{command, command_of, is_taken, named, value_in};

use crate::WordsFault;
use crate::command::leafd_command;
use clap::ArgMatches;
use clap::error::ErrorKind;
use std::alloc::Global;

/// The words behind `map`: the two texts of a transform, and the text that it is given.
#[derive(Clone, Copy, Debug, PartialEq, Eq)]
pub struct MapWords<'a> {
    pub src: &'a [u8],
    pub dest: &'a [u8],
    pub subject: &'a [u8],
}

/// A command, with what it is given.
#[derive(Clone, Copy, Debug, PartialEq, Eq)]
pub enum Words<'a> {
    /// Run the script on the standard input.
    Drill,
    /// Check the configuration file of this name.
    Check { conf: &'a [u8] },
    /// Print what the store in this folder holds.
    Inspect { dir: &'a [u8] },
    /// Print what a transform makes of a subject.
    Map { texts: MapWords<'a> },
}

/// Reads the words behind the program's name: `drill`, `check CONF`, `inspect DIR` or
/// `map SRC DEST SUBJECT`. A word that begins with `-` is a flag, of which there are none, unless `--`
/// stands before it.
///
/// `Usage` comes exactly where the reading refuses the words.
#[tactic(auto, unfolding(crate::specs::Commands::is_taken, crate::specs::Commands::command_of))]
pub fn read_words<'a>(alloc: Global, words: &'a [String]) -> Result<Words<'a>, WordsFault>
    ensures value { IfOk result (λ read. command_of (map string_bytes words.now) ≡ Some (command read)) }
    ensures taken { IfOk result (λ _. IsTrue (is_taken (map string_bytes words.now))) }
    ensures usage { result ≡ Err WordsFault.Usage → is_taken (map string_bytes words.now) ≡ false }
{
    let command = match leafd_command(alloc) {
        Ok(command) => command,
        Err(_) => return Err(WordsFault::NoMemory),
    };
    match command.try_get_matches_from(words) {
        Ok(matches) => match found(&matches) {
            Some(read) => Ok(read),
            None => Err(WordsFault::Usage),
        },
        Err(error) => {
            if error.kind() == ErrorKind::OutOfMemory {
                Err(WordsFault::NoMemory)
            } else {
                Err(WordsFault::Usage)
            }
        }
    }
}

/// The command that was found among the words.
fn found<'a>(matches: &ArgMatches<'a>) -> Option<Words<'a>>
    ensures { option_map command result ≡ option_map named (subcommand_rows_of matches.now) }
{
    match matches.subcommand() {
        Some((name, values)) => Some(words_named(name, values)),
        None => None,
    }
}

fn words_named<'a>(name: &str, values: &ArgMatches<'a>) -> Words<'a>
    ensures { command result ≡ named (name.now, rows_of (found_of values.now)) }
{
    if name == "drill" {
        Words::Drill
    } else if name == "check" {
        Words::Check {
            conf: value_in(values, "CONF"),
        }
    } else if name == "inspect" {
        Words::Inspect {
            dir: value_in(values, "DIR"),
        }
    } else {
        Words::Map {
            texts: MapWords {
                src: value_in(values, "SRC"),
                dest: value_in(values, "DEST"),
                subject: value_in(values, "SUBJECT"),
            },
        }
    }
}

/// What was found for a value.
fn value_in<'a>(values: &ArgMatches<'a>, id: &str) -> &'a [u8]
    ensures { result.now ≡ value_in id.now (rows_of (found_of values.now)) }
{
    match values.get_str(id) {
        Some(value) => value.as_bytes(),
        None => b"",
    }
}
