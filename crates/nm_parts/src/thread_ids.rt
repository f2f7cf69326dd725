//! The labels and tags of a mail that comes, for `changes`, and the laws of threads that the work rests on.

ghost use Rattle.std.specs.Prelude.{◌≡◌, ◌≤◌, ◌^◌, ◌∷◌, ◌++◌, [], ℕ, List, IfOk, OnOk, if◌then◌else◌};
ghost use Rattle.std.specs.BTreeMap.{insert_entry};
ghost use Rattle.std.specs.Cmp.Lexicographic.{slice_cmp};
ghost use Rattle.std.specs.Ordering.{nat_cmp};
ghost use Rattle.nm_base.specs.declared.facts.LinkRow.{LinkRow};
ghost use Rattle.nm_commit.specs.Files.{has_id};
ghost use Rattle.nm_model_index.specs.Index.{first_tags, row_of};
ghost use Rattle.nm_threads.specs.Labels.{AreLabelsOf, entries_of, numbered};
ghost use Rattle.nm_tables.specs.FileTable.{AreFiled, files_in};
ghost use Rattle.nm_parts.specs.Parts.{AreTagged};
ghost use Rattle.nm_parts.specs.ThreadLaws.{ThreadLaws};

use crate::message_tags::{first_tags, set_tags};
use nm_base::{Copies, Facts, LinkRow, NoMemory};
use nm_shared::Shared;
use nm_tables::{FileTable, MeasuredLabels, MessageTags, is_live};
use nm_threads::{
    labels_know_no_order_of_rows, same_is_an_equivalence, same_is_what_is_computed,
    the_order_of_rows_is_nothing,
};
use std::alloc::Global;

/// The laws of threads in one. No code runs.
pub fn thread_laws()
    ensures { ThreadLaws }
{
    same_is_what_is_computed();
    same_is_an_equivalence();
    the_order_of_rows_is_nothing();
    labels_know_no_order_of_rows();
}

/// The row of a mail: its id, and the ids that it links to.
pub fn row_of(facts: &Facts) -> Result<LinkRow, NoMemory>
    ensures { IfOk result (λ row. row ≡ row_of facts.now) }
{
    Ok(LinkRow {
        id: facts.id.copy()?,
        links: facts.links.copy()?,
    })
}

/// The labels once the mail is there.
pub fn label_mail(
    alloc: Global,
    labels: &mut MeasuredLabels,
    facts: &Shared<Facts>,
) -> Result<(), NoMemory>
    requires { (numbered (entries_of labels.old.labels) labels.old.next (facts.now.id ∷ facts.now.links)).1 ≤ 2 ^ 63 }
    ensures numbers { OnOk result ((entries_of labels.new.labels, labels.new.next) ≡ numbered (entries_of labels.old.labels) labels.old.next (facts.now.id ∷ facts.now.links)) }
    ensures labels { OnOk result ((rows : List LinkRow) → AreLabelsOf rows labels.old.labels → AreLabelsOf (row_of facts.now ∷ rows) labels.new.labels) }
{
    let row = shared_row(facts)?;
    labels.add_row(alloc, &row)?;
    Ok(())
}

fn shared_row(facts: &Shared<Facts>) -> Result<LinkRow, NoMemory>
    ensures { IfOk result (λ row. row ≡ row_of facts.now) }
{
    row_of(facts.get())
}

/// The tags once the mail is there: a message without a file gets its first ones.
pub fn tag_mail(
    alloc: Global,
    file_table: &FileTable,
    tags: &mut MessageTags,
    facts: &Shared<Facts>,
) -> Result<(), NoMemory>
    requires { AreFiled file_table.now }
    ensures tags { OnOk result (tags.new ≡ (if has_id (files_in file_table.now) facts.now.id then tags.old else insert_entry (slice_cmp nat_cmp) tags.old facts.now.id (first_tags facts.now.marks))) }
    ensures tagged { OnOk result ((path : List ℕ) → AreTagged (files_in file_table.now) tags.old → AreTagged (files_in file_table.now ++ (path, facts.now) ∷ []) tags.new) }
{
    tag_first(alloc, file_table, tags, facts.get())
}

fn tag_first(
    alloc: Global,
    file_table: &FileTable,
    tags: &mut MessageTags,
    facts: &Facts,
) -> Result<(), NoMemory>
    requires { AreFiled file_table.now }
    ensures tags { OnOk result (tags.new ≡ (if has_id (files_in file_table.now) facts.now.id then tags.old else insert_entry (slice_cmp nat_cmp) tags.old facts.now.id (first_tags facts.now.marks))) }
    ensures tagged { OnOk result ((path : List ℕ) → AreTagged (files_in file_table.now) tags.old → AreTagged (files_in file_table.now ++ (path, facts.now) ∷ []) tags.new) }
{
    if is_live(file_table, &facts.id) {
        return Ok(());
    }
    set_tags(alloc, tags, &facts.id, first_tags(alloc, facts.marks)?)?;
    Ok(())
}
