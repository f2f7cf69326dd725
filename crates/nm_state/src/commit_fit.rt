//! Which commits fit, for `snapshot`: each change is held against the files that the changes before it leave.

ghost use Rattle.std.specs.Prelude.{◌≡◌, ◌↔◌, false, IfOk, IsTrue, OnOk};
ghost use Rattle.nm_commit.specs.Files.{FitChanges, FitsChange, changed, has_path};
ghost use Rattle.nm_tables.specs.FileTable.{AreFiled, files_in};

use crate::additions::additions_fit;
use nm_base::{MailPath, NoMemory, is_date};
use nm_commit::Change;
use nm_tables::{FileTable, add_file, has_file, is_live, move_file, remove_file};
use std::alloc::Global;

/// Whether the changes fit the files.
pub fn fit(alloc: Global, file_table: &FileTable, changes: &[Change]) -> Result<bool, NoMemory>
    requires { AreFiled file_table.now }
    ensures { IfOk result (λ fit. IsTrue fit ↔ FitChanges (files_in file_table.now) changes.now) }
{
    if let Some(fit) = additions_fit(alloc, file_table, changes)? {
        return Ok(fit);
    }
    let mut file_table = file_table.share()?;
    changes_fit(alloc, &mut file_table, changes)
}

/// Whether the changes fit the files. These are of no use any more.
fn changes_fit(
    alloc: Global,
    file_table: &mut FileTable,
    changes: &[Change],
) -> Result<bool, NoMemory>
    requires { AreFiled file_table.old }
    ensures { IfOk result (λ fit. IsTrue fit ↔ FitChanges (files_in file_table.old) changes.now) }
{
    'changes: for change in changes {
        if !change_fits(file_table, change) {
            return Ok(false);
        }
        follow(alloc, file_table, change)?;
    }
    Ok(true)
}

fn change_fits(file_table: &FileTable, change: &Change) -> bool
    requires { AreFiled file_table.now }
    ensures { IsTrue result ↔ FitsChange (files_in file_table.now) change.now }
{
    match change {
        Change::Add { path, facts } => is_free(file_table, path) && is_date(facts.get().date),
        Change::Drop { path } => has_file(file_table, path),
        Change::Move { from, to } => has_file(file_table, from) && is_free(file_table, to),
        Change::SetTags { id, .. } => is_live(file_table, id),
    }
}

fn is_free(file_table: &FileTable, path: &MailPath) -> bool
    requires { AreFiled file_table.now }
    ensures { IsTrue result ↔ (has_path (files_in file_table.now) path.now ≡ false) }
{
    !has_file(file_table, path)
}

/// The files after a change that fits.
fn follow(alloc: Global, file_table: &mut FileTable, change: &Change) -> Result<(), NoMemory>
    requires filed { AreFiled file_table.old }
    requires fits { FitsChange (files_in file_table.old) change.now }
    ensures filed { OnOk result (AreFiled file_table.new) }
    ensures files { OnOk result (files_in file_table.new ≡ changed (files_in file_table.old) change.now) }
{
    match change {
        Change::Add { path, facts } => add_file(alloc, file_table, path, facts),
        Change::Drop { path } => {
            remove_file(alloc, file_table, path)?;
            Ok(())
        }
        Change::Move { from, to } => move_file(file_table, from, to),
        Change::SetTags { .. } => Ok(()),
    }
}
