//! Reading an input to its end: `nm_call` reads scripts and lines so.

ghost use Rattle.std.specs.Prelude.{◌≡◌, ℕ, ◌<◌, ◌≤◌, List, length, IfOk, OnOk, OnErr, IsErrOf, IfSome};
ghost use Rattle.std.specs.Io.KnownBytes.{Consumes, IsAtEnd};
ghost use Rattle.nm_io.specs.WholeInput.{HasTakeCause};

use crate::Source;
use nm_base::{Failed, Many};
use std::alloc::{AllocError, Global};
use thiserror::Error;

/// Why a source was not read to its end.
#[derive(Clone, Copy, Debug, Error)]
pub enum TakeError {
    #[error("read fault")]
    ReadFault,
    /// It gave more bytes than were allowed.
    #[error("too long")]
    TooLong,
    #[error("no memory")]
    NoMemory,
}

const PIECE: usize = 65_536;

/// All bytes of the source up to its end, if they are at most `max`.
pub fn take_all<S: Source>(alloc: Global, source: &mut S, max: u64) -> Result<Many<u8>, TakeError>
    // Where the bytes are known, these are all of them.
    ensures all { IfOk result (λ all. IfSome (S.observed source.old).bytes (λ bytes. all ≡ bytes)) }
    ensures consumed { IfOk result (λ all. Consumes (S.observed source.old).bytes (S.observed source.new).bytes all) }
    ensures end { OnOk result (IsAtEnd (S.observed source.new).bytes) }
    ensures within { IfOk result (λ all. length all ≤ max) }

    // After an error the first bytes are taken.
    ensures err { OnErr result ((gone : List ℕ) × Consumes (S.observed source.old).bytes (S.observed source.new).bytes gone) }
    ensures long { IsErrOf result TakeError.TooLong → IfSome (S.observed source.old).bytes (λ bytes. max < length bytes) }
    ensures cause { HasTakeCause (S.observed source.old).faults (S.observed source.new).faults result }
{
    let Ok(mut piece) = new_piece(alloc) else {
        return Err(TakeError::NoMemory);
    };
    let mut all = Many::new(alloc);
    'turns: while all.len() as u64 <= max {
        match source.take(piece.as_mut_slice()) {
            Ok(0) => return Ok(all),
            Ok(n) => {
                if all.extend_from_slice(&piece.as_slice()[..n]).is_err() {
                    return Err(TakeError::NoMemory);
                }
            }
            Err(_) => return Err(TakeError::ReadFault),
        }
    }
    Err(TakeError::TooLong)
}

// On the heap, since a function pays at entry for the size of its locals.
fn new_piece(alloc: Global) -> Result<Vec<u8>, AllocError>
    ensures { IfOk result (λ piece. length piece.items ≡ PIECE) }
{
    let mut piece = Vec::new(alloc);
    piece.resize(PIECE, 0)?;
    Ok(piece)
}
