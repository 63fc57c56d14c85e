ghost use Rattle.std.specs.Prelude.{◌≡◌, ◌<◌, IfOk, IfErr, vec_len};
ghost use Rattle.leaf_edges.specs.Causes.{Causes};
ghost use Rattle.leaf_edges.specs.declared.fault.EdgeError.TheVariants.{NoMemory};
ghost use Rattle.leafd_cli.specs.Outcome.{Gathers, ReadsPiece};

use leaf_edges::{EdgeError, Source};
use std::alloc::Global;

/// The most bytes that a script may have.
pub const LONGEST: usize = 16_777_216;

const PIECE: usize = 65_536;

/// Reads a source to its end, or past the most bytes that a script may have.
pub fn read_all<S: Source>(alloc: Global, source: &mut S) -> Result<Vec<u8>, EdgeError>
    ensures text { IfOk result (λ text. Gathers (S.left source.old) (S.left source.new) text.items) }
    ensures cause { Causes (S.faults source.old) (S.faults source.new) result }
{
    let mut text = Vec::new(alloc);
    let mut piece = new_piece(alloc, PIECE)?;
    while text.len() <= LONGEST {
        let count = match read_piece(source, &mut piece, &mut text) {
            Ok(count) => count,
            Err(error) => return Err(error),
        };
        if count == 0 {
            return Ok(text);
        }
    }
    Ok(text)
}

fn new_piece(alloc: Global, size: usize) -> Result<Vec<u8>, EdgeError>
    requires { 0 < size }
    ensures room { IfOk result (λ piece. 0 < vec_len piece) }
    ensures memory { IfErr result (λ e. e ≡ NoMemory) }
{
    match vec![in alloc; 0u8; size] {
        Ok(piece) => Ok(piece),
        Err(_) => Err(EdgeError::NoMemory),
    }
}

fn read_piece<S: Source>(
    source: &mut S,
    piece: &mut Vec<u8>,
    text: &mut Vec<u8>,
) -> Result<usize, EdgeError>
    requires { 0 < vec_len piece.old }
    ensures read { IfOk result (ReadsPiece (S.left source.old) (S.left source.new) text.old.items text.new.items) }
    ensures cause { Causes (S.faults source.old) (S.faults source.new) result }
    ensures room { vec_len piece.new ≡ vec_len piece.old }
{
    let count = match source.read(piece) {
        Ok(count) => count,
        Err(error) => return Err(error),
    };
    match text.extend_from_slice(&piece[..count]) {
        Ok(()) => Ok(count),
        Err(_) => Err(EdgeError::NoMemory),
    }
}
