//! A snapshot as data, for `snapshot` and `fresh_numbers`. The clauses of all that changes a snapshot speak of it.

ghost use Rattle.std.specs.Prelude.{◌≡◌, IfOk, OnOk};
ghost use Rattle.std.specs.Map.{values_of};
ghost use Rattle.nm_threads.specs.Labels.{entries_of};
ghost use Rattle.nm_tables.specs.FileTable.{files_in};
ghost use Rattle.nm_model_index.specs.Valid.{IsValid};
ghost use Rattle.nm_parts.specs.Parts.{AreParts, AreTagged, base_of};
ghost use Rattle.nm_state.specs.Taken.{TakesFrom};

use nm_base::{Copies, Facts, LinkRow, MailPath, Many, MessageId, NoMemory, Tags};
use nm_model_index::Base;
use nm_parts::Parts;
use nm_shared::{Shared, SharedMap};
use nm_tables::{FileTable, Files, MeasuredLabels, MeasuredMap, MessageTags, RowBytes};
use std::alloc::Global;

fn files_of(alloc: Global, file_table: &FileTable) -> Result<Many<(MailPath, Facts)>, NoMemory>
    ensures { IfOk result (λ files. files ≡ files_in file_table.now) }
{
    let mut files = Many::new(alloc);
    let mut rest = Files::of(file_table.files.pairs());
    'files: while let Some((path, facts)) = rest.next() {
        files.push((path.copy()?, facts.copy()?))?;
    }
    Ok(files)
}

fn rows_of(
    alloc: Global,
    kept: &MeasuredMap<RowBytes, Shared<LinkRow>>,
) -> Result<Many<LinkRow>, NoMemory>
    ensures { IfOk result (λ rows. rows ≡ values_of kept.now) }
{
    let mut rows = Many::new(alloc);
    let mut rest = kept.iter();
    'rows: while let Some(entry) = rest.next() {
        rows.push(entry.1.get().copy()?)?;
    }
    Ok(rows)
}

fn entries_of(alloc: Global, labels: &MeasuredLabels) -> Result<Many<(MessageId, u64)>, NoMemory>
    ensures { IfOk result (λ entries. entries ≡ entries_of labels.now.labels) }
{
    let mut entries = Many::new(alloc);
    let mut rest = labels.entries();
    'entries: while let Some((id, number)) = rest.next() {
        entries.push((id.copy()?, number))?;
    }
    Ok(entries)
}

/// Says in a map by ids what the tags say of a message.
fn take_tags(
    all: &mut SharedMap<MessageId, Shared<Tags>>,
    tags: &MessageTags,
    id: &MessageId,
) -> Result<(), NoMemory>
    ensures { OnOk result (TakesFrom tags.now id.now all.old all.new) }
{
    match tags.get(id) {
        Some(set) => {
            all.insert(id.copy()?, set.copy()?)?;
            Ok(())
        }
        None => all.remove(id),
    }
}

/// The tags of the messages of these files in a map by ids.
fn tags_by_id(
    alloc: Global,
    file_table: &FileTable,
    tags: &MessageTags,
) -> Result<SharedMap<MessageId, Shared<Tags>>, NoMemory>
    requires { AreTagged (files_in file_table.now) tags.now }
    ensures { IfOk result (λ all. all ≡ tags.now) }
{
    let mut all = SharedMap::new(alloc);
    let mut rest = Files::of(file_table.files.pairs());
    'files: while let Some((_, facts)) = rest.next() {
        take_tags(&mut all, tags, &facts.id)?;
    }
    // No code needs the number; that both are in order comes with it.
    let _ = all.len();
    tags.order();
    Ok(all)
}

fn tags_of(
    alloc: Global,
    all: &SharedMap<MessageId, Shared<Tags>>,
) -> Result<Many<(MessageId, Tags)>, NoMemory>
    ensures { IfOk result (λ tags. tags ≡ all.now) }
{
    let mut tags = Many::new(alloc);
    let mut rest = all.iter();
    'tags: while let Some(entry) = rest.next() {
        tags.push((entry.0.copy()?, entry.1.get().copy()?))?;
    }
    Ok(tags)
}

/// The index that the parts make.
pub fn base_of(alloc: Global, parts: &Parts) -> Result<Base, NoMemory>
    requires { AreParts parts.now }
    ensures base { IfOk result (λ base. base ≡ base_of parts.now) }
    ensures valid { IfOk result (λ base. IsValid base) }
{
    let next = parts.labels.next();
    // No code needs it; that the ids are in order comes with it.
    parts.tags.order();
    let tags = tags_by_id(alloc, &parts.file_table, &parts.tags)?;
    Ok(Base {
        revision: parts.revision,
        next,
        files: files_of(alloc, &parts.file_table)?,
        kept: rows_of(alloc, &parts.kept)?,
        entries: entries_of(alloc, &parts.labels)?,
        tags: tags_of(alloc, &tags)?,
    })
}
