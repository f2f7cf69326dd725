//! What a mail folder has that an index lacks, and what an index has that is not listed any more; `new` of `nm_writer` begins with it.

ghost use Rattle.std.specs.Prelude.{◌≡◌, ◌∷◌, ◌++◌, [], Err, IfOk, OnErr, OnOk};
ghost use Rattle.nm_model_answer.specs.NewText.{gone};
ghost use Rattle.nm_base.specs.Order.{IsSorted, sorted};
ghost use Rattle.nm_commit.specs.Files.{paths_of};
ghost use Rattle.nm_model_plan.specs.Plan.{message_ids, removed_files, to_read};
ghost use Rattle.nm_scan.specs.Listing.{PassesListing};
ghost use Rattle.nm_scan.specs.Walk.{is_scan_fault};
ghost use Rattle.nm_base.specs.declared.limit.Limit.{Limit};
ghost use Rattle.nm_faults.specs.Faults.{HasCauseOf};
ghost use Rattle.nm_scan.specs.Scan.{AsksNew};
ghost use Rattle.nm_sync.specs.Listed.{HasListed};
ghost use Rattle.nm_sync.specs.Noted.{since};

use crate::merge::only_in;
use nm_base::{Copies, MailPath, Many, MessageId, NoMemory, TextSet};
use nm_maildir::{Given, Maildir};
use nm_scan::{ScanError, list_paths};
use nm_state::Snapshot;
use std::alloc::Global;

/// What a listing tells of an index: the listed paths that it lacks, and those of its own that are missing.
#[derive(Drop)]
pub struct Compared {
    pub unknown: Many<MailPath>,
    pub gone: Many<MailPath>,
    /// The messages whose files are missing, one for each of these files.
    pub removed_ids: Many<MessageId>,
}

/// Lists the mail, compares it with the index, and notes the listing. The names that came and went are synced first, since an index that has
/// a name which a loss of power takes back would follow the older one.
pub fn compare<M: Maildir>(
    alloc: Global,
    shown: &Snapshot,
    mail: &mut M,
    given: &mut Many<Given>,
) -> Result<Compared, ScanError>
    ensures ok { IfOk result (HasListed (M.observed mail.old).tree shown.now.files given.old given.new) }
    ensures mail { IfOk result (λ _. M.observed mail.new ≡ M.observed mail.old) }
    ensures err { OnErr result (given.new ≡ given.old) }
    ensures limit { (limit : Limit) → result ≡ Err (ScanError.Limit limit) → PassesListing (M.observed mail.old).tree limit }
    ensures asked { AsksNew (M.observed mail.old) (M.observed mail.new) shown.now.files (since given.old given.new) }
    ensures tree { (M.observed mail.new).tree ≡ (M.observed mail.old).tree }
    ensures cause { HasCauseOf is_scan_fault (M.observed mail.old).faults (M.observed mail.new).faults result }
{
    let listed = match list_paths(alloc, mail) {
        Ok(listed) => listed,
        Err(error) => return Err(error),
    };
    let compared = side_by_side(alloc, shown, &listed)?;
    mail.sync(compared.unknown.as_slice(), compared.gone.as_slice())?;
    note_listed(alloc, &listed, given)?;
    Ok(compared)
}

/// The paths of the listing and those of the index, passed side by side.
fn side_by_side(
    alloc: Global,
    shown: &Snapshot,
    listed: &TextSet<MailPath>,
) -> Result<Compared, NoMemory>
    ensures unknown { IfOk result (λ compared. compared.unknown ≡ to_read shown.now.files listed.now) }
    ensures gone { IfOk result (λ compared. compared.gone ≡ gone shown.now.files listed.now) }
    ensures ids { IfOk result (λ compared. compared.removed_ids ≡ message_ids (removed_files shown.now.files listed.now)) }
{
    let paths = listed.to_list(alloc)?;
    let known = known_paths(alloc, shown)?;
    let unknown = only_in(alloc, paths.as_slice(), known.as_slice())?;
    let gone = only_in(alloc, known.as_slice(), paths.as_slice())?;
    let removed_ids = removed_ids(alloc, shown, listed, &gone)?;
    Ok(Compared {
        unknown,
        gone,
        removed_ids,
    })
}

fn note_listed(
    alloc: Global,
    listed: &TextSet<MailPath>,
    given: &mut Many<Given>,
) -> Result<(), NoMemory>
    ensures ok { OnOk result (given.new ≡ given.old ++ Given.Listed listed.now ∷ []) }
    ensures rising { OnOk result (IsSorted listed.now) }
    ensures err { OnErr result (given.new ≡ given.old) }
{
    let paths = listed.to_list(alloc)?;
    given.push(Given::Listed(paths))?;
    Ok(())
}

/// The paths of the index, in order.
fn known_paths(alloc: Global, shown: &Snapshot) -> Result<Many<MailPath>, NoMemory>
    ensures paths { IfOk result (λ known. known ≡ sorted (paths_of shown.now.files)) }
    ensures rising { IfOk result (λ known. IsSorted known) }
{
    let mut known = Many::new(alloc);
    'paths: for path in shown.paths() {
        known.push(path.copy()?)?;
    }
    Ok(known)
}

/// The messages of the files that are not listed, in the order of their arrival. Where no path is missing, no file is looked
/// at.
fn removed_ids(
    alloc: Global,
    shown: &Snapshot,
    listed: &TextSet<MailPath>,
    away: &Many<MailPath>,
) -> Result<Many<MessageId>, NoMemory>
    requires { away.now ≡ gone shown.now.files listed.now }
    ensures { IfOk result (λ ids. ids ≡ message_ids (removed_files shown.now.files listed.now)) }
{
    let mut ids = Many::new(alloc);
    if away.is_empty() {
        return Ok(ids);
    }
    'files: for file in shown.files_in_order() {
        if !listed.contains(file.0) {
            ids.push(file.1.id.copy()?)?;
        }
    }
    Ok(ids)
}
