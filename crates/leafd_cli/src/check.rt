ghost use Rattle.std.specs.Prelude.{◌≡◌, ℕ, Ok, IfOk};
ghost use Rattle.leaf_edges.specs.Files.{SameFiles};
ghost use Rattle.leafd_conf.specs.Confs.{conf_of};
ghost use Rattle.leafd_cli.specs.declared.status.Status.TheVariants.{Usage};
ghost use Rattle.leafd_cli.specs.Checking.{Checks, ChecksSaid, conf_text, place_word};
ghost use Rattle.leafd_cli.specs.Outcome.{CountsRead, CountsWrite, CountsDisks};

use crate::Status;
use crate::output::write_report;
use crate::texts::push_text;
use leaf_edges::{EdgeError, Files, Sink};
use leafd_conf::{Conf, ConfKind, ConfProblem, read_conf};
use nats_text::{Bytes, NoMemory};
use std::alloc::Global;

/// Prints whether the configuration file of this name is that of a hub or of a leaf.
pub fn check<O: Sink, F: Files>(alloc: Global, name: &[u8], files: &mut F, out: &mut O) -> Status
    ensures report { Checks F.tells (F.text_of files.old name.now) (O.taken out.old) (O.taken out.new) result }
    ensures usage { result ≡ Usage → ⊥ }
    ensures same { F.tells → SameFiles F.place F.is_out F.handed F.text_of files.old files.new }
    ensures leads { F.leads files.old files.new }
    ensures read { CountsRead (F.faults files.old) (F.faults files.new) result }
    ensures write { CountsWrite (O.faults out.old) (O.faults out.new) result }
    ensures disk { CountsDisks (F.disk_faults files.old) (F.disk_faults files.new) result }
{
    let mut text = Vec::new(alloc);
    match files.text(name, &mut text) {
        Ok(true) => check_text(alloc, &text, out),
        Ok(false) => Status::ConfFault {
            kind: ConfKind::NoFile,
            member: Bytes::new(alloc),
        },
        Err(EdgeError::Failed) => Status::ReadFault,
        Err(EdgeError::NoMemory) => Status::NoMemory,
    }
}

/// Checks the text of a configuration file.
fn check_text<O: Sink>(alloc: Global, text: &[u8], out: &mut O) -> Status
    ensures report { ChecksSaid (conf_of text.now) (O.taken out.old) (O.taken out.new) result }
    ensures usage { result ≡ Usage → ⊥ }
    ensures read { (before : ℕ) → CountsRead before before result }
    ensures write { CountsWrite (O.faults out.old) (O.faults out.new) result }
    ensures disk { (before : ℕ) → CountsDisks before before result }
{
    match read_conf(alloc, text) {
        Ok(conf) => print_conf(alloc, &conf, out),
        Err(ConfProblem::Bad { kind, member }) => Status::ConfFault { kind, member },
        Err(ConfProblem::NoMemory) => Status::NoMemory,
    }
}

/// Prints the name of a configuration's node, and whether it is a hub or a leaf.
fn print_conf<O: Sink>(alloc: Global, conf: &Conf, out: &mut O) -> Status
    ensures report { ChecksSaid (Ok conf.now) (O.taken out.old) (O.taken out.new) result }
    ensures usage { result ≡ Usage → ⊥ }
    ensures read { (before : ℕ) → CountsRead before before result }
    ensures write { CountsWrite (O.faults out.old) (O.faults out.new) result }
    ensures disk { (before : ℕ) → CountsDisks before before result }
{
    match line_of(alloc, conf) {
        Ok(line) => write_report(out, &line),
        Err(NoMemory) => Status::NoMemory,
    }
}

/// The line of a configuration.
fn line_of(alloc: Global, conf: &Conf) -> Result<Vec<u8>, NoMemory>
    ensures { IfOk result (λ line. line.items ≡ conf_text conf.now) }
{
    let mut line = Vec::new(alloc);
    push_text(&mut line, b"conf ")?;
    push_text(&mut line, conf.name.bytes())?;
    push_text(&mut line, b" ")?;
    push_text(&mut line, place_word(conf))?;
    push_text(&mut line, b"\n")?;
    Ok(line)
}

fn place_word(conf: &Conf) -> &'static [u8]
    ensures { result.now ≡ place_word conf.now }
{
    if conf.leaf_listen.is_some() {
        b"hub"
    } else {
        b"leaf"
    }
}
