ghost use Rattle.std.specs.Prelude.{◌≡◌, ◌≤◌, ◌<◌, ◌-◌, ◌^◌, length, IfOk, OnOk};
ghost use Rattle.leaf_edges.specs.Causes.{Causes};
ghost use Rattle.leafd_script.specs.Words.{Gives};
ghost use Rattle.leafd_script.specs.Lines.{IfLine};
ghost use Rattle.leafd_cli.specs.ScriptLines.{line_text, ends_in_return};
ghost use Rattle.leafd_cli.specs.Legal.{judged, fault_of, line_or};
ghost use Rattle.leafd_cli.specs.Book.{said_text};
ghost use Rattle.leafd_cli.specs.Plain.{start, step_on};
ghost use Rattle.leafd_cli.specs.Keeping.{AreSound, IsWellMade};
ghost use Rattle.leafd_cli.specs.Turns.{IsTurn, IsRan, IsLegalIfOk, IsLegalOn, IsWellMadeOn};

use crate::world::World;
use leaf_edges::{EdgeError, Sink, pump_all};
use leafd_script::{Line, LineFault, ScriptKind, read_line};
use nats_text::{NoMemory, cut};
use std::alloc::Global;
use std::marker::Model;

/// Where a script stopped: the number of a line that isn't legal in its place, and why.
#[derive(Clone, Copy)]
pub struct Stop {
    pub line: u64,
    pub kind: ScriptKind,
}

/// A script on its way: the number is that of the next line, counted from 1.
#[derive(Drop)]
pub struct Drill {
    alloc: Global,
    world: World,
    number: u64,
}

impl Model for Drill {
    ghost use Rattle.leafd_cli.specs.Plain.{Progress};

    ghost Value = { Progress };

    ghost view = { λ d. record { logs = d.world; number = d.number } };
}

impl Drill {
    fn new(alloc: Global) -> Drill
        ensures { result ≡ start }
    {
        Drill {
            alloc,
            world: World::new(alloc),
            number: 1,
        }
    }

    fn number(&self) -> u64
        ensures { result ≡ self.now.number }
    {
        self.number
    }

    /// Takes one line and writes what it prints, or says why the line isn't legal in its place.
    fn take<O: Sink>(
        &mut self,
        out: &mut O,
        line: &[u8],
        ended: bool,
    ) -> Result<Option<ScriptKind>, EdgeError>
        requires number { self.old.number < 2 ^ 63 }
        requires kept { AreSound self.old.logs.streams }
        ensures turn { IsTurn self.old (record { bytes = line.now; ended = ended }) self.new (O.taken out.old) (O.taken out.new) result }
        ensures cause { Causes (O.faults out.old) (O.faults out.new) result }
    {
        let said = match self.judged(line, ended) {
            Ok(said) => said,
            Err(LineFault::Bad { kind }) => return Ok(Some(kind)),
            Err(LineFault::NoMemory) => return Err(EdgeError::NoMemory),
        };
        let text = match self.step(said) {
            Ok(text) => text,
            Err(NoMemory) => return Err(EdgeError::NoMemory),
        };
        self.number += 1;
        match pump_all(out, &text) {
            Ok(()) => Ok(None),
            Err(error) => Err(error),
        }
    }

    /// What a line says in its place.
    fn judged(&self, line: &[u8], ended: bool) -> Result<Option<Line>, LineFault>
        ensures said { Gives result (judged self.now.logs (record { bytes = line.now; ended = ended })) }
        ensures made { IfLine result IsWellMade }
        ensures legal { IsLegalIfOk self.now.logs result }
    {
        match read_line(self.alloc, line_text(line, ended))? {
            Some(line) => self.if_legal(line),
            None => Ok(None),
        }
    }

    /// A line that is legal in its place, or why it isn't.
    fn if_legal(&self, line: Line) -> Result<Option<Line>, LineFault>
        requires { IsWellMade line }
        ensures said { Gives result (line_or line (fault_of self.now.logs line)) }
        ensures made { IfLine result IsWellMade }
        ensures legal { IsLegalIfOk self.now.logs result }
    {
        match self.world.fault_of(self.alloc, &line) {
            Ok(None) => Ok(Some(line)),
            Ok(Some(kind)) => {
                drop(line);
                Err(LineFault::Bad { kind })
            }
            Err(NoMemory) => {
                drop(line);
                Err(LineFault::NoMemory)
            }
        }
    }

    /// Does what a line says, and answers what it prints.
    fn step(&mut self, said: Option<Line>) -> Result<Vec<u8>, NoMemory>
        requires legal { IsLegalOn self.old.logs said }
        requires made { IsWellMadeOn said }
        requires kept { AreSound self.old.logs.streams }
        ensures number { self.new.number ≡ self.old.number }
        ensures logs { OnOk result (self.new.logs ≡ step_on self.old.logs said) }
        ensures text { IfOk result (λ text. text.items ≡ said_text self.old.number self.old.logs said) }
    {
        match said {
            None => Ok(Vec::new(self.alloc)),
            Some(line) => self.world.step(self.alloc, self.number, line),
        }
    }
}

/// A line without one carriage return before its line feed.
fn line_text(line: &[u8], ended: bool) -> &[u8]
    ensures { result.now ≡ line_text (record { bytes = line.now; ended = ended }) }
{
    if ended && ends_in_return(line) {
        &line[..line.len() - 1]
    } else {
        line
    }
}

fn ends_in_return(line: &[u8]) -> bool
    ensures { result ≡ ends_in_return line.now }
{
    !line.is_empty() && line[line.len() - 1] == b'\r'
}

/// Runs a script up to the first line that isn't legal in its place, and answers where that is.
pub fn run_script<O: Sink>(
    alloc: Global,
    text: &[u8],
    out: &mut O,
) -> Result<Option<Stop>, EdgeError>
    requires { length text.now ≤ 16777216 }
    ensures ran { IsRan text.now (O.taken out.old) (O.taken out.new) result }
    ensures cause { Causes (O.faults out.old) (O.faults out.new) result }
{
    let mut drill = Drill::new(alloc);
    let mut rest = text;
    while let Some((line, after)) = cut(rest, b'\n') {
        match drill.take(out, line, true) {
            Ok(None) => {}
            Ok(Some(kind)) => {
                return Ok(Some(Stop {
                    line: drill.number(),
                    kind,
                }));
            }
            Err(error) => return Err(error),
        }
        rest = after;
    }
    if rest.is_empty() {
        return Ok(None);
    }
    match drill.take(out, rest, false) {
        Ok(None) => Ok(None),
        Ok(Some(kind)) => Ok(Some(Stop {
            line: drill.number(),
            kind,
        })),
        Err(error) => Err(error),
    }
}
