//! What a `restore` asks for, for `nm_line`: the lines of a dump as changes of tags, and the ids that no message has.

ghost use Rattle.std.specs.Prelude.{◌≡◌, ◌++◌, ℕ, ◌∷◌, List, not, IfOk, OnOk};
ghost use Rattle.nm_model_answer.specs.Restore.{restoring_of, restorings_by, stranger_of, strangers};
ghost use Rattle.nm_base.specs.Order.{has_text};
ghost use Rattle.nm_dump.specs.Named.{Names};

use nm_base::{Copies, Many, MessageId, NoMemory};
use nm_model_answer::TagChange;
use nm_query::Query;
use nm_shared::HashedMap;
use nm_state::Snapshot;
use nm_tags::Wanted;
use std::alloc::Global;

/// Changes of tags by the lines of a dump, and what they name that is no message.
#[derive(Drop)]
pub struct DumpChanges {
    /// A change for each line. Unless tags are to stay, the first line that names a message takes off all that it has.
    pub lines: Many<TagChange>,
    /// The ids that no message of the snapshot has, in the order of the lines and each once.
    pub strangers: Many<MessageId>,
}

/// What the lines of a dump ask for. It costs look-ups in two maps a line, and the memory of the lines.
pub fn restoring(
    alloc: Global,
    snapshot: &Snapshot,
    wanted: &[Wanted],
    accumulate: bool,
) -> Result<DumpChanges, NoMemory>
    ensures lines { IfOk result (λ asked. asked.lines ≡ restorings_by accumulate wanted.now) }
    ensures strangers { IfOk result (λ asked. asked.strangers ≡ strangers snapshot.now wanted.now) }
{
    let mut named = HashedMap::new(alloc);
    let mut lines = Many::new(alloc);
    let mut strangers = Many::new(alloc);
    'wanted: for line in wanted {
        let first = is_first(&mut named, &line.id)?;
        lines.push(tagging_of(line, first, accumulate)?)?;
        add_stranger(&mut strangers, snapshot, line, first)?;
    }
    Ok(DumpChanges { lines, strangers })
}

/// Says whether the id was not named before, and names it.
fn is_first(named: &mut HashedMap<MessageId, u64>, id: &MessageId) -> Result<bool, NoMemory>
    ensures { IfOk result (λ first. (before : List (List ℕ)) → Names named.old before → (first ≡ not (has_text before id.now)) × Names named.new (id.now ∷ before)) }
{
    if named.get(id).is_some() {
        return Ok(false);
    }
    named.insert(id.copy()?, 0)?;
    Ok(true)
}

/// Tells the id of a line, where it is the first that names it and no message has it.
fn add_stranger(
    strangers: &mut Many<MessageId>,
    snapshot: &Snapshot,
    line: &Wanted,
    first: bool,
) -> Result<(), NoMemory>
    ensures { OnOk result (strangers.new ≡ strangers.old ++ stranger_of snapshot.now (first, line.now)) }
{
    if first && !snapshot.is_live(&line.id) {
        strangers.push(line.id.copy()?)?;
    }
    Ok(())
}

/// What a line asks for of its message.
fn tagging_of(line: &Wanted, first: bool, accumulate: bool) -> Result<TagChange, NoMemory>
    ensures { IfOk result (λ tagging. tagging ≡ restoring_of accumulate (first, line.now)) }
{
    let ops = line.ops.copy()?;
    let id = line.id.text().copy()?;
    Ok(TagChange {
        clear: first && !accumulate,
        ops,
        query: Query::Id(id),
    })
}
