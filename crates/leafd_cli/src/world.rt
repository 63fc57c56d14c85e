ghost use Rattle.std.specs.Prelude.{◌≡◌, ◌++◌, ◌∷◌, [], None, codes, IfOk, OnOk};
ghost use Rattle.leafd_cli.specs.Logs.{no_logs, stream_at};
ghost use Rattle.leafd_cli.specs.Legal.{fault_of};
ghost use Rattle.leafd_cli.specs.Effects.{effect, answer_at};
ghost use Rattle.leafd_cli.specs.Operations.{Task, worked, worked_in, new_stream};
ghost use Rattle.leafd_cli.specs.Report.{printed, answer_text, answer_if};
ghost use Rattle.leafd_cli.specs.Plain.{step};
ghost use Rattle.leafd_cli.specs.Keeping.{AreSound, IsNumbered, AllNumbered, IsWellMade};

use crate::effects::effect;
use crate::finding::{position_of, stream_at};
use crate::legal::fault_of;
use crate::operation::{Effect, Operation};
use crate::report::{answer, heads_text, log_text, show_text};
use crate::settle::settle;
use crate::stream::Stream;
use leafd_script::{Line, ScriptKind};
use nats_text::{Bytes, Headers, Name, NoMemory};
use std::alloc::Global;
use std::marker::Model;
use stream_fold::Config;

/// A world of nodes whose copies take their origin's messages in `settle`. The clock is in
/// nanoseconds. A quiet world prints no answers.
#[derive(Drop)]
pub struct World {
    nodes: Vec<Name>,
    streams: Vec<Stream>,
    clock: u64,
    quiet: bool,
}

impl Model for World {
    ghost use Rattle.leafd_cli.specs.Logs.{Logs};

    ghost Value = { Logs };

    ghost view = { λ w. record { nodes = w.nodes.items; streams = w.streams.items; clock = w.clock; quiet = w.quiet } };
}

impl World {
    pub fn new(alloc: Global) -> World
        ensures { result ≡ no_logs }
    {
        World {
            nodes: Vec::new(alloc),
            streams: Vec::new(alloc),
            clock: 0,
            quiet: false,
        }
    }

    /// Why a line isn't legal in its place: the first of its faults.
    pub fn fault_of(&self, alloc: Global, line: &Line) -> Result<Option<ScriptKind>, NoMemory>
        ensures { IfOk result (λ fault. fault ≡ fault_of self.now line.now) }
    {
        fault_of(alloc, &self.nodes, &self.streams, line)
    }

    /// Does what a legal line says, and answers what it prints. Without memory the world is of no use
    /// any more.
    pub fn step(&mut self, alloc: Global, number: u64, line: Line) -> Result<Vec<u8>, NoMemory>
        requires legal { fault_of self.old line ≡ None }
        requires made { IsWellMade line }
        requires kept { AreSound self.old.streams }
        ensures world { OnOk result (self.new ≡ step self.old line) }
        ensures text { IfOk result (λ text. text.items ≡ printed number self.old line) }
    {
        match line {
            Line::Node { node } => {
                self.nodes.push(node)?;
                Ok(Vec::new(alloc))
            }
            Line::Stream { node, config } => self.make(alloc, number, node, config),
            Line::Mirror { node, config } => self.make(alloc, number, node, config),
            Line::Update {
                node,
                name,
                changes,
            } => self.work(alloc, number, node, name, Operation::Update { changes }),
            Line::Publish {
                node,
                name,
                subject,
                text,
            } => {
                let headers = Headers::empty(alloc);
                let operation = Operation::Publish {
                    subject,
                    headers,
                    text,
                };
                self.work(alloc, number, node, name, operation)
            }
            Line::PublishWithHeaders {
                node,
                name,
                subject,
                headers,
                text,
            } => {
                let operation = Operation::Publish {
                    subject,
                    headers,
                    text,
                };
                self.work(alloc, number, node, name, operation)
            }
            Line::Delete { node, name, seq } => {
                self.work(alloc, number, node, name, Operation::Delete { seq })
            }
            Line::Purge {
                node,
                name,
                pattern,
                below,
            } => self.work(
                alloc,
                number,
                node,
                name,
                Operation::Purge { pattern, below },
            ),
            Line::Expire { node, name } => {
                self.work(alloc, number, node, name, Operation::Expire)
            }
            Line::Clock { moment } => {
                self.clock = moment;
                Ok(Vec::new(alloc))
            }
            Line::Settle => {
                settle(alloc, &mut self.streams)?;
                Ok(Vec::new(alloc))
            }
            Line::Show { node, name } => show_text(alloc, stream_at(&self.streams, &node, &name)),
            Line::Log { node, name } => log_text(alloc, stream_at(&self.streams, &node, &name)),
            Line::Heads => heads_text(alloc, &self.nodes, &self.streams),
            Line::Quiet => {
                self.quiet = true;
                Ok(Vec::new(alloc))
            }
        }
    }

    fn make(
        &mut self,
        alloc: Global,
        number: u64,
        node: Name,
        config: Config,
    ) -> Result<Vec<u8>, NoMemory>
        ensures world { OnOk result (self.new ≡ record self.old { streams = self.old.streams ++ new_stream node config ∷ [] }) }
        ensures text { IfOk result (λ text. text.items ≡ answer_if self.old.quiet number (codes "made")) }
    {
        self.streams.push(Stream::new(alloc, node, config)?)?;
        answer(alloc, self.quiet, number, b"made")
    }

    /// Does an operation on a stream, and answers it.
    fn work(
        &mut self,
        alloc: Global,
        number: u64,
        node: Name,
        name: Name,
        operation: Operation,
    ) -> Result<Vec<u8>, NoMemory>
        requires { AllNumbered self.old.streams }
        ensures world { OnOk result (self.new ≡ record self.old { streams = worked_in self.old.clock (record { node = node; name = name; operation = operation }) self.old.streams }) }
        ensures text { IfOk result (λ text. text.items ≡ answer_text self.old.quiet number (answer_at self.old.clock operation (stream_at node name self.old.streams))) }
    {
        let text = work_in(
            alloc,
            self.clock,
            &mut self.streams,
            &node,
            &name,
            operation,
        );
        drop(node);
        drop(name);
        match text? {
            Some(text) => answer(alloc, self.quiet, number, text.as_slice()),
            None => Ok(Vec::new(alloc)),
        }
    }
}

/// Does an operation on the stream of a name on a node, and gives its answer, where it is there.
fn work_in(
    alloc: Global,
    now: u64,
    streams: &mut Vec<Stream>,
    node: &Name,
    name: &Name,
    operation: Operation,
) -> Result<Option<Bytes>, NoMemory>
    requires { AllNumbered streams.old.items }
    ensures streams { OnOk result (streams.new.items ≡ worked_in now (record { node = node.now; name = name.now; operation = operation }) streams.old.items) }
    ensures answer { IfOk result (λ answer. answer ≡ answer_at now operation (stream_at node.now name.now streams.old.items)) }
{
    let Some(place) = position_of(streams, node, name) else {
        return Ok(None);
    };
    let stream = &mut streams[place];
    let answer = work_on(alloc, now, operation, stream)?;
    Ok(Some(answer))
}

/// Does an operation on a stream at a moment, and answers it.
fn work_on(
    alloc: Global,
    now: u64,
    operation: Operation,
    stream: &mut Stream,
) -> Result<Bytes, NoMemory>
    requires { IsNumbered stream.old }
    ensures stream { OnOk result (stream.new ≡ worked now operation stream.old) }
    ensures answer { IfOk result (λ answer. answer ≡ (effect now operation stream.old).answer) }
{
    let Effect { entry, answer } = effect(alloc, now, operation, stream)?;
    if let Some(entry) = entry {
        stream.add(entry)?;
    }
    Ok(answer)
}
