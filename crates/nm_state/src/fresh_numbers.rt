//! An index whose ids are numbered anew from 1, for `room`. What a commit makes of it has as many files and takes as
//! many bytes as what it makes of the index itself, for which there may be no numbers left.

ghost use Rattle.std.specs.Prelude.{◌≡◌, IfOk};
ghost use Rattle.nm_parts.specs.Parts.{AreParts, base_of};
ghost use Rattle.nm_state.specs.Renumbered.{counted, renumbered};

use crate::export::base_of;
use crate::load::parts_of;
use nm_base::{Copies, Many, MessageId, NoMemory};
use nm_parts::Parts;
use std::alloc::Global;

/// The ids with the numbers from 1 on.
fn counted(alloc: Global, entries: &[(MessageId, u64)]) -> Result<Many<(MessageId, u64)>, NoMemory>
    ensures { IfOk result (λ all. all ≡ counted 1 entries.now) }
{
    let mut all = Many::new(alloc);
    let mut number = 1u64;
    'entries: for entry in entries {
        if number == 1 << 63 {
            return Err(NoMemory);
        }
        all.push((entry.0.copy()?, number))?;
        number += 1;
    }
    Ok(all)
}

/// The parts with their ids numbered anew.
pub fn renumbered(alloc: Global, parts: &Parts) -> Result<Parts, NoMemory>
    requires { AreParts parts.now }
    ensures parts { IfOk result (λ anew. AreParts anew) }
    ensures base { IfOk result (λ anew. base_of anew ≡ renumbered (base_of parts.now)) }
{
    let mut base = base_of(alloc, parts)?;
    let entries = counted(alloc, base.entries.as_slice())?;
    let count = entries.len() as u64;
    if count >= 1 << 63 {
        return Err(NoMemory);
    }
    base.entries = entries;
    base.next = 1 + count;
    let anew = parts_of(alloc, &base)?;
    Ok(anew)
}
