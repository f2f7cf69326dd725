//! Whether an index has room for a commit, for `snapshot`: what it would come to is counted, and held against the limits.

ghost use Rattle.std.specs.Prelude.{◌≡◌, ◌+◌, ◌≤◌, ◌^◌, fold, length, min, IfOk};
ghost use Rattle.nm_base.specs.Limits.{max_count};
ghost use Rattle.nm_commit.specs.Files.{FitChanges};
ghost use Rattle.nm_model_index.specs.Index.{applied, committed};
ghost use Rattle.nm_model_index.specs.declared.base.Base.{Base};
ghost use Rattle.nm_record.specs.BaseBytes.{base_len};
ghost use Rattle.nm_record.specs.Room.{limit_passed};
ghost use Rattle.nm_state.specs.Counts.{AreCounts};
ghost use Rattle.nm_parts.specs.Parts.{AreParts, base_of};

use crate::fresh_numbers::renumbered;
use crate::numbers::has_ids;
use nm_base::{Limit, NoMemory};
use nm_commit::Commit;
use nm_model_index::numbers_never_fall;
use nm_parts::{Parts, apply_changes};
use nm_record::a_base_takes_what_its_parts_take;
use std::alloc::Global;
use thiserror::Error;

/// Why a commit is not made.
#[derive(Clone, Copy, Debug, Error)]
pub enum RoomError {
    /// The index after it would pass this limit.
    #[error("limit")]
    Limit(Limit),
    #[error("no memory")]
    NoMemory,
}

impl From<NoMemory> for RoomError {
    ghost use Rattle.std.specs.Prelude.{◌≡◌};
    ghost use Rattle.nm_state.specs.declared.room.RoomError.TheVariants.{NoMemory as OutOfMemory};

    ghost from_gives = { λ _ e. e ≡ OutOfMemory };

    fn from(_: NoMemory) -> RoomError {
        RoomError::NoMemory
    }
}

/// The most files of an index.
const MAX_FILES: u64 = 1_048_576;

/// The most bytes of an index as data.
const MAX_INDEX_BYTES: u64 = 1_073_741_824;

/// The most that the next number and the revision come to.
const MAX_NUMBER: u64 = 1 << 63;

/// What an index comes to, as far as a number can count it: how many files, how many bytes as data, and the next
/// number.
#[derive(Clone, Copy, Drop)]
pub struct Counts {
    pub files: u64,
    pub bytes: u64,
    pub next: u64,
}

/// What the index of the parts comes to.
pub fn counts_of(parts: &Parts) -> Counts
    requires { AreParts parts.now }
    ensures { AreCounts (base_of parts.now) result }
{
    a_base_takes_what_its_parts_take();
    let bytes = 32u64
        .saturating_add(parts.file_table.files.bytes())
        .saturating_add(parts.kept.bytes())
        .saturating_add(parts.labels.bytes())
        .saturating_add(parts.tags.bytes());
    Counts {
        files: parts.file_table.files.pairs().len() as u64,
        bytes,
        next: parts.labels.next(),
    }
}

/// What the index comes to after a commit for whose ids there are numbers.
fn counts_made(alloc: Global, parts: &Parts, commit: &Commit) -> Result<Counts, NoMemory>
    requires parts { AreParts parts.now }
    requires fits { FitChanges (base_of parts.now).files commit.now.changes }
    requires numbers { (fold applied (base_of parts.now) commit.now.changes).next ≤ 2 ^ 63 }
    ensures { IfOk result (λ counts. AreCounts (committed (base_of parts.now) commit.now) counts) }
{
    let mut after = parts.share()?;
    apply_changes(alloc, &mut after, commit.changes.as_slice())?;
    Ok(counts_of(&after))
}

/// The same where there may be no number for each id that the commit names: given by the index whose ids are numbered
/// anew.
fn counts_anew(alloc: Global, parts: &Parts, commit: &Commit) -> Result<Counts, NoMemory>
    requires parts { AreParts parts.now }
    requires fits { FitChanges (base_of parts.now).files commit.now.changes }
    ensures { IfOk result (λ counts. AreCounts (committed (base_of parts.now) commit.now) counts) }
{
    a_base_takes_what_its_parts_take();
    numbers_never_fall();
    let anew = renumbered(alloc, parts)?;
    if !has_ids(&anew, commit) {
        return Err(NoMemory);
    }
    let counts = counts_made(alloc, &anew, commit)?;
    let more = counts.next.saturating_sub(anew.labels.next());
    Ok(Counts {
        files: counts.files,
        bytes: counts.bytes,
        next: parts.labels.next().saturating_add(more),
    })
}

/// What the index comes to after a commit.
pub fn counts_after(alloc: Global, parts: &Parts, commit: &Commit) -> Result<Counts, NoMemory>
    requires parts { AreParts parts.now }
    requires fits { FitChanges (base_of parts.now).files commit.now.changes }
    ensures { IfOk result (λ counts. AreCounts (committed (base_of parts.now) commit.now) counts) }
{
    if has_ids(parts, commit) {
        counts_made(alloc, parts, commit)
    } else {
        counts_anew(alloc, parts, commit)
    }
}

/// The first limit that an index of this revision passes which comes to so much.
pub fn limit_passed(counts: Counts, revision: u64) -> Option<Limit>
    ensures { (index : Base) → AreCounts index counts → revision ≡ min index.revision max_count → result ≡ limit_passed index }
{
    if counts.files > MAX_FILES {
        return Some(Limit::Files);
    }
    if counts.bytes > MAX_INDEX_BYTES {
        return Some(Limit::IndexBytes);
    }
    if counts.next > MAX_NUMBER || revision > MAX_NUMBER {
        return Some(Limit::Numbers);
    }
    None
}
