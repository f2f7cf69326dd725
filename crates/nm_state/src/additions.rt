//! Commits that bring mails and set tags alone, as those of `new` do over mail that came: they are held against the files as
//! these are, of which no clone is made; `commit_fit` calls it.

ghost use Rattle.std.specs.Prelude.{◌≡◌, ◌↔◌, ◌||◌, [], IfOk, IfSome, IsTrue};
ghost use Rattle.nm_base.specs.Order.{has_text};
ghost use Rattle.nm_commit.specs.Files.{FitChanges, has_id, has_path};
ghost use Rattle.nm_commit.specs.declared.change.Change.TheVariants.{Add};
ghost use Rattle.nm_state.specs.Additions.{IsTried};
ghost use Rattle.nm_tables.specs.FileTable.{AreFiled, files_in};

use nm_base::{Copies, Facts, MailPath, MessageId, NoMemory, TextSet, is_date};
use nm_commit::Change;
use nm_tables::{FileTable, has_file, is_live};
use std::alloc::Global;

/// What the changes so far have brought: the paths of mails and the ids of their messages.
#[derive(Drop)]
struct Added {
    paths: TextSet<MailPath>,
    ids: TextSet<MessageId>,
}

impl Added {
    fn new(alloc: Global) -> Added
        ensures paths { result.paths ≡ [] }
        ensures ids { result.ids ≡ [] }
    {
        Added {
            paths: TextSet::new(alloc),
            ids: TextSet::new(alloc),
        }
    }
}

/// Whether the changes fit the files, where they bring mails and set tags; none where one of them does something else.
pub fn additions_fit(
    alloc: Global,
    file_table: &FileTable,
    changes: &[Change],
) -> Result<Option<bool>, NoMemory>
    requires { AreFiled file_table.now }
    ensures { IfOk result (λ told. IfSome told (λ fit. IsTrue fit ↔ FitChanges (files_in file_table.now) changes.now)) }
{
    let mut added = Added::new(alloc);
    'changes: for change in changes {
        let Some(fits) = try_change(file_table, &mut added, change)? else {
            return Ok(None);
        };
        if !fits {
            return Ok(Some(false));
        }
    }
    Ok(Some(true))
}

/// Whether a change fits, where it brings a mail or sets tags. What it brings is added.
fn try_change(
    file_table: &FileTable,
    added: &mut Added,
    change: &Change,
) -> Result<Option<bool>, NoMemory>
    requires { AreFiled file_table.now }
    ensures { IfOk result (λ told. IfSome told (λ fits. IsTried (files_in file_table.now) change.now added.old added.new fits)) }
{
    match change {
        Change::Add { path, facts } => {
            let fits = try_mail(file_table, added, path, facts.get())?;
            Ok(Some(fits))
        }
        Change::SetTags { id, .. } => Ok(Some(has_mail(file_table, added, id))),
        Change::Drop { .. } | Change::Move { .. } => Ok(None),
    }
}

fn try_mail(
    file_table: &FileTable,
    added: &mut Added,
    path: &MailPath,
    facts: &Facts,
) -> Result<bool, NoMemory>
    requires { AreFiled file_table.now }
    ensures { IfOk result (λ fits. IsTried (files_in file_table.now) (Add path.now facts.now) added.old added.new fits) }
{
    if lies_there(file_table, added, path) {
        return Ok(false);
    }
    if !is_date(facts.date) {
        return Ok(false);
    }
    added.paths.insert(path.copy()?)?;
    added.ids.insert(facts.id.copy()?)?;
    Ok(true)
}

fn lies_there(file_table: &FileTable, added: &Added, path: &MailPath) -> bool
    requires { AreFiled file_table.now }
    ensures { result ≡ (has_text added.now.paths path.now || has_path (files_in file_table.now) path.now) }
{
    added.paths.contains(path) || has_file(file_table, path)
}

/// Whether a mail of the message is there, or has come with the changes so far.
fn has_mail(file_table: &FileTable, added: &Added, id: &MessageId) -> bool
    requires { AreFiled file_table.now }
    ensures { result ≡ (has_text added.now.ids id.now || has_id (files_in file_table.now) id.now) }
{
    added.ids.contains(id) || is_live(file_table, id)
}
