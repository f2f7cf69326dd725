//! The tags that lines want, line by line, for the command `tag` of `nm_writer`: they are in a snapshot in the place of the tags.

ghost use Rattle.std.specs.Prelude.{◌≡◌, ◌++◌, ℕ, List, IfOk, OnOk, map};
ghost use Rattle.nm_dates.specs.Seconds.{IsMoment};
ghost use Rattle.nm_model_answer.specs.View.{tags_of};
ghost use Rattle.nm_model_answer.specs.WantedTags.{asked_tags, found_by, wanted_after, wanted_by};
ghost use Rattle.nm_eval.specs.Numbers.{live_at_numbers};
ghost use Rattle.nm_changes.specs.WantedTags.{AreTouched};

use nm_base::{Copies, Many, MessageId, NoMemory, Tags};
use nm_eval::{add_numbered, matches, the_live_ones_stand_at_their_numbers};
use nm_model_answer::TagChange;
use nm_model_plan::a_line_tags_what_it_finds;
use nm_state::Snapshot;
use nm_tags::apply_ops;
use std::alloc::Global;
use std::collections::BTreeMap;

/// The snapshot in which the tags that are wanted are, and the messages that a line found, by their numbers.
#[derive(Drop)]
pub struct Wanted {
    pub after: Snapshot,
    pub ids: Many<MessageId>,
}

/// What is wanted after the lines. A line costs what its query and the messages that it finds cost.
pub fn wanted_by(
    alloc: Global,
    shown: &Snapshot,
    lines: &[TagChange],
    moment: i64,
) -> Result<Wanted, NoMemory>
    requires moment { IsMoment moment }
    ensures after { IfOk result (λ wanted. wanted.after ≡ wanted_by moment shown.now lines.now) }
    ensures ids { IfOk result (λ wanted. AreTouched shown.now wanted.after wanted.ids) }
{
    a_line_tags_what_it_finds();
    the_live_ones_stand_at_their_numbers();
    let mut after = shown.copy()?;
    let mut numbered: BTreeMap<u64, MessageId> = BTreeMap::new(alloc);
    'lines: for line in lines {
        after = want_line(alloc, after, line, moment, &mut numbered)?;
    }
    let ids: Vec<MessageId> = numbered.into_values().collect(alloc)?;
    Ok(Wanted {
        after,
        ids: Many::from_vec(ids),
    })
}

/// What is wanted after a line, where this is wanted before it. What it finds comes to its place among the others.
fn want_line(
    alloc: Global,
    before: Snapshot,
    line: &TagChange,
    moment: i64,
    numbered: &mut BTreeMap<u64, MessageId>,
) -> Result<Snapshot, NoMemory>
    requires moment { IsMoment moment }
    ensures after { IfOk result (λ after. after ≡ wanted_after moment before line.now) }
    ensures found { OnOk result ((ids : List (List ℕ)) → numbered.old.entries ≡ live_at_numbers before ids
        → numbered.new.entries ≡ live_at_numbers before (ids ++ found_by moment before line.now)) }
{
    a_line_tags_what_it_finds();
    let found = matches(alloc, &before, &line.query, moment, false)?;
    let sets = line_sets(alloc, &before, found.as_slice(), line)?;
    add_all_numbered(&before, found.as_slice(), numbered)?;
    before.with_tags(&sets)
}

/// Puts the messages at their numbers.
fn add_all_numbered(
    before: &Snapshot,
    found: &[MessageId],
    numbered: &mut BTreeMap<u64, MessageId>,
) -> Result<(), NoMemory>
    ensures { OnOk result ((ids : List (List ℕ)) → numbered.old.entries ≡ live_at_numbers before.now ids
        → numbered.new.entries ≡ live_at_numbers before.now (ids ++ found.now)) }
{
    'found: for id in found {
        add_numbered(before, id, numbered)?;
    }
    Ok(())
}

/// The messages that a line finds, each with the tags that are then wanted.
fn line_sets(
    alloc: Global,
    before: &Snapshot,
    found: &[MessageId],
    line: &TagChange,
) -> Result<Many<(MessageId, Tags)>, NoMemory>
    ensures { IfOk result (λ sets. sets ≡ map (λ id. (id, asked_tags line.now (tags_of before.now id))) found.now) }
{
    let mut sets = Many::new(alloc);
    'found: for id in found {
        let tags = asked_tags(alloc, before, id, line)?;
        sets.push((id.copy()?, tags))?;
    }
    Ok(sets)
}

fn asked_tags(
    alloc: Global,
    before: &Snapshot,
    id: &MessageId,
    line: &TagChange,
) -> Result<Tags, NoMemory>
    ensures { IfOk result (λ tags. tags ≡ asked_tags line.now (tags_of before.now id.now)) }
{
    match before.tags(id) {
        Some(tags) => apply_ops(alloc, tags, line.clear, &line.ops),
        None => apply_ops(alloc, &Tags::new(alloc), line.clear, &line.ops),
    }
}
