//! A snapshot made of an index as data, for `snapshot` and `fresh_numbers`.

ghost use Rattle.std.specs.Prelude.{◌≡◌, ◌≤◌, ◌^◌, ◌++◌, map, IfOk};
ghost use Rattle.std.specs.List.{AllByRecursion, IsDistinct};
ghost use Rattle.std.specs.List.Sorted.{IsStrictlySortedBy};
ghost use Rattle.std.specs.Map.{keys_of, values_of};
ghost use Rattle.nm_base.specs.Limits.{IsDate};
ghost use Rattle.nm_base.specs.Order.{IsSorted, same_text};
ghost use Rattle.nm_commit.specs.Files.{paths_of};
ghost use Rattle.nm_model_index.specs.Index.{row_cmp, row_of};
ghost use Rattle.nm_model_index.specs.Valid.{IsValid};
ghost use Rattle.nm_tables.specs.FileTable.{AreFiled, files_in};
ghost use Rattle.nm_tables.specs.Kept.{AreKept};
ghost use Rattle.nm_parts.specs.Parts.{AreParts, base_of};

use nm_base::{Copies, Facts, LinkRow, MailPath, Many, MessageId, NoMemory, Tags};
use nm_model_index::Base;
use nm_parts::{Parts, row_of, set_tags};
use nm_shared::Shared;
use nm_tables::{
    FileTable, MeasuredLabels, MeasuredMap, MessageTags, RowBytes, add_file, keep_row,
};
use std::alloc::Global;

/// The files in their maps.
fn file_all(alloc: Global, files: &[(MailPath, Facts)]) -> Result<FileTable, NoMemory>
    requires paths { IsDistinct same_text (paths_of files.now) }
    requires dates { AllByRecursion (λ file. IsDate file.1.date) files.now }
    ensures filed { IfOk result (λ file_table. AreFiled file_table) }
    ensures files { IfOk result (λ file_table. files_in file_table ≡ files.now) }
{
    let mut file_table = FileTable::new(alloc);
    'files: for file in files {
        let facts = Shared::new(alloc, file.1.copy()?)?;
        add_file(alloc, &mut file_table, &file.0, &facts)?;
    }
    Ok(file_table)
}

/// The kept rows in their map.
fn keep_all(
    alloc: Global,
    rows: &[LinkRow],
) -> Result<MeasuredMap<RowBytes, Shared<LinkRow>>, NoMemory>
    requires { IsStrictlySortedBy row_cmp rows.now }
    ensures kept { IfOk result (λ kept. AreKept kept) }
    ensures rows { IfOk result (λ kept. values_of kept ≡ rows.now) }
{
    let mut kept = MeasuredMap::new(alloc);
    'rows: for row in rows {
        keep_row(alloc, &mut kept, row.copy()?)?;
    }
    Ok(kept)
}

/// The tags of messages in their map.
fn tag_all(alloc: Global, tags: &[(MessageId, Tags)]) -> Result<MessageTags, NoMemory>
    requires { IsSorted (keys_of tags.now) }
    ensures { IfOk result (λ all. all ≡ tags.now) }
{
    let mut all = MessageTags::new(alloc);
    'tags: for tagged in tags {
        set_tags(alloc, &mut all, &tagged.0, tagged.1.copy()?)?;
    }
    Ok(all)
}

/// The rows of all files, and those kept of files that went.
fn all_rows(
    alloc: Global,
    files: &[(MailPath, Facts)],
    kept: &Many<LinkRow>,
) -> Result<Many<LinkRow>, NoMemory>
    ensures { IfOk result (λ rows. rows ≡ map (λ file. row_of file.1) files.now ++ kept.now) }
{
    let mut rows = file_rows(alloc, files)?;
    'kept: for row in kept.as_slice() {
        rows.push(row.copy()?)?;
    }
    Ok(rows)
}

fn file_rows(alloc: Global, files: &[(MailPath, Facts)]) -> Result<Many<LinkRow>, NoMemory>
    ensures { IfOk result (λ rows. rows ≡ map (λ file. row_of file.1) files.now) }
{
    let mut rows = Many::new(alloc);
    'files: for file in files {
        rows.push(row_of(&file.1)?)?;
    }
    Ok(rows)
}

/// The parts of a snapshot that is the index.
pub fn parts_of(alloc: Global, base: &Base) -> Result<Parts, NoMemory>
    requires valid { IsValid base.now }
    requires numbers { base.now.next ≤ 2 ^ 63 }
    ensures parts { IfOk result (λ parts. AreParts parts) }
    ensures base { IfOk result (λ parts. base_of parts ≡ base.now) }
{
    let rows = all_rows(alloc, base.files.as_slice(), &base.kept)?;
    let labels = MeasuredLabels::of(alloc, &rows, &base.entries, base.next)?;
    let file_table = file_all(alloc, base.files.as_slice())?;
    let kept = keep_all(alloc, base.kept.as_slice())?;
    let tags = tag_all(alloc, base.tags.as_slice())?;
    Ok(Parts {
        revision: base.revision,
        file_table,
        kept,
        labels,
        tags,
    })
}
