//! The renames that follow tags, for the command `tag` of `nm_writer`: each is tried in turn, and what the folder answers is noted.

ghost use Rattle.std.specs.Prelude.{◌≡◌, ◌⊎◌, ◌++◌, ◌∷◌, ◌<◌, [], ℕ, List, false, length, unwrap_or, Err, IfOk, OnErr, OnOk, fold};
ghost use Rattle.std.specs.BTreeMap.{get};
ghost use Rattle.std.specs.Cmp.Lexicographic.{slice_cmp};
ghost use Rattle.std.specs.List.{flat_map};
ghost use Rattle.std.specs.Ordering.{nat_cmp};
ghost use Rattle.nm_base.specs.declared.facts.Facts.{Facts};
ghost use Rattle.nm_commit.specs.Files.{changed, has_path, with_moved};
ghost use Rattle.nm_maildir.specs.Observed.{HasMailCause};
ghost use Rattle.nm_model_answer.specs.RenameOutcomes.{files_moved, note_of, unmoved_by, unmoved_in};
ghost use Rattle.nm_model_plan.specs.Moves.{move_given, move_if};
ghost use Rattle.nm_sync.specs.Noted.{since};
ghost use Rattle.nm_sync.specs.Renamed.{AreTried, AsksRenames, HasPlaces, IsDone, IsKept, outcomes_given};

use nm_base::{Copies, MailPath, Many, NoMemory};
use nm_commit::Change;
use nm_flags::Rename;
use nm_maildir::{Given, MailError, Maildir, Renamed};
use nm_model_answer::Unmoved;
use nm_state::Snapshot;
use std::alloc::Global;
use std::collections::BTreeMap;

/// What is kept of the renames that are done.
#[derive(Drop)]
pub struct RenameLog {
    /// The files that keep their names.
    pub unmoved: Many<(MailPath, Unmoved)>,
    /// The moves that were made, for the index.
    pub moves: Many<Change>,
    /// Of the paths that moves freed and took, whether a file is there.
    pub places: BTreeMap<MailPath, bool>,
}

impl RenameLog {
    /// None is done yet, which takes no memory.
    fn new(alloc: Global) -> RenameLog
        ensures unmoved { result.unmoved ≡ [] }
        ensures moves { result.moves ≡ [] }
        ensures kept { (files : List (List ℕ × Facts)) → IsKept files result }
    {
        RenameLog {
            unmoved: Many::new(alloc),
            moves: Many::new(alloc),
            places: BTreeMap::new(alloc),
        }
    }
}

/// Tries the renames in order, and notes what the folder answers. After a fault no further one is tried.
fn rename_all<M: Maildir>(
    alloc: Global,
    mail: &mut M,
    shown: &Snapshot,
    plan: Many<Rename>,
    done: &mut RenameLog,
    given: &mut Many<Given>,
) -> Result<(), MailError>
    requires none { (done.old.unmoved ≡ []) × (done.old.moves ≡ []) }
    requires kept { IsKept shown.now.files done.old }
    ensures tried { AreTried shown.now.files plan (since given.old given.new) }
    ensures all { OnOk result (length (outcomes_given shown.now.files plan (since given.old given.new)) ≡ length plan) }
    ensures unmoved { OnOk result (done.new.unmoved ≡ flat_map unmoved_in (outcomes_given shown.now.files plan (since given.old given.new))) }
    ensures moves { OnOk result (done.new.moves ≡ flat_map move_given (since given.old given.new)) }
    ensures moves_failed { result ≡ Err MailError.Failed → done.new.moves ≡ flat_map move_given (since given.old given.new) }
    ensures asks { AsksRenames (M.observed mail.old) (M.observed mail.new) given.old given.new }
    ensures cause { HasMailCause (M.observed mail.old).faults (M.observed mail.new).faults result }
{
    'renames: for rename in plan.into_vec() {
        match rename_one(alloc, mail, shown, rename, done, given) {
            Ok(()) => {}
            Err(error) => return Err(error),
        }
    }
    Ok(())
}

/// Tries the renames in order, and then syncs the folders in which files were renamed: were a name lost with the power after the commit
/// of the moves, the next `new` would take the file for another one. What was done is reported also where the folder failed.
pub fn rename_and_sync<M: Maildir>(
    alloc: Global,
    mail: &mut M,
    shown: &Snapshot,
    plan: Many<Rename>,
    given: &mut Many<Given>,
) -> (RenameLog, Result<(), MailError>)
    ensures tried { AreTried shown.now.files plan (since given.old given.new) }
    ensures all { OnOk result.1 (length (outcomes_given shown.now.files plan (since given.old given.new)) ≡ length plan) }
    ensures unmoved { OnOk result.1 (result.0.unmoved ≡ flat_map unmoved_in (outcomes_given shown.now.files plan (since given.old given.new))) }
    ensures moves { OnOk result.1 (result.0.moves ≡ flat_map move_given (since given.old given.new)) }
    ensures moves_failed { result.1 ≡ Err MailError.Failed → result.0.moves ≡ flat_map move_given (since given.old given.new) }
    ensures asks { AsksRenames (M.observed mail.old) (M.observed mail.new) given.old given.new }
    ensures cause { HasMailCause (M.observed mail.old).faults (M.observed mail.new).faults result.1 }
{
    let mut done = RenameLog::new(alloc);
    match rename_all(alloc, mail, shown, plan, &mut done, given) {
        Ok(()) => {}
        Err(error) => return (done, Err(error)),
    }
    if done.moves.is_empty() {
        return (done, Ok(()));
    }
    let synced = mail.sync(&[], &[]);
    (done, synced)
}

/// Tries a rename, unless its target is too long or a path of the index.
fn rename_one<M: Maildir>(
    alloc: Global,
    mail: &mut M,
    shown: &Snapshot,
    rename: Rename,
    done: &mut RenameLog,
    given: &mut Many<Given>,
) -> Result<(), MailError>
    requires kept { IsKept shown.now.files done.old }
    ensures kept { OnOk result (IsKept shown.now.files done.new) }
    ensures done { OnOk result ((step : IsDone (fold changed shown.now.files done.old.moves) rename given.old given.new)
        × (done.new.unmoved ≡ done.old.unmoved ++ unmoved_in step.outcome) × (done.new.moves ≡ done.old.moves ++ flat_map move_given (note_of step.outcome))) }
    ensures failed { result ≡ Err MailError.Failed → (given.new ≡ given.old) × (done.new.moves ≡ done.old.moves) }
    ensures stops { OnErr result ((given.new ≡ given.old) ⊎ IsDone (fold changed shown.now.files done.old.moves) rename given.old given.new) }
    ensures asks { AsksRenames (M.observed mail.old) (M.observed mail.new) given.old given.new }
    ensures cause { HasMailCause (M.observed mail.old).faults (M.observed mail.new).faults result }
{
    let Rename { from, to } = rename;
    let Some(to) = to else {
        done.unmoved.push((from, Unmoved::Long))?;
        return Ok(());
    };
    if has_place(shown, &done.places, &to) {
        done.unmoved.push((from, Unmoved::Exists))?;
        return Ok(());
    }
    match try_rename(alloc, mail, &from, &to, given) {
        Ok(answer) => {
            follow(shown, from, to, answer, done)?;
            Ok(())
        }
        Err(error) => Err(error),
    }
}

/// Whether a file of the index is there, as the moves so far leave it.
fn has_place(shown: &Snapshot, places: &BTreeMap<MailPath, bool>, path: &MailPath) -> bool
    ensures { result ≡ unwrap_or (get (slice_cmp nat_cmp) places.now path.now) (has_path shown.now.files path.now) }
{
    match places.get(path) {
        Some(there) => *there,
        None => shown.has_path(path),
    }
}

/// Asks the folder for one rename. There is a place for the note before it is asked, so that nothing is moved unnoted.
fn try_rename<M: Maildir>(
    alloc: Global,
    mail: &mut M,
    from: &MailPath,
    to: &MailPath,
    given: &mut Many<Given>,
) -> Result<Renamed, MailError>
    ensures ok { IfOk result (λ answer. given.new ≡ given.old ++ Given.Renamed from.now to.now answer ∷ []) }
    ensures err { OnErr result (given.new ≡ given.old) }
    ensures asks { AsksRenames (M.observed mail.old) (M.observed mail.new) given.old given.new }
    ensures cause { HasMailCause (M.observed mail.old).faults (M.observed mail.new).faults result }
{
    let given_from = from.copy()?;
    let given_to = to.copy()?;
    given.push(Given::Listed(Many::new(alloc)))?;
    match mail.rename(from, to) {
        Ok(answer) => {
            let renamed = Given::Renamed {
                from: given_from,
                to: given_to,
                answer,
            };
            replace_last(given, renamed);
            Ok(answer)
        }
        Err(error) => {
            given.pop();
            Err(error)
        }
    }
}

/// Puts this in the place of the last note.
fn replace_last(given: &mut Many<Given>, renamed: Given)
    requires { 0 < length given.old }
    ensures { (front : List Given) (last : Given) → given.old ≡ front ++ last ∷ [] → given.new ≡ front ++ renamed ∷ [] }
{
    let at = given.len() - 1;
    given.replace(at, renamed);
}

/// Keeps what follows from the answer: a move with its two places, or the file that keeps its name.
fn follow(
    shown: &Snapshot,
    from: MailPath,
    to: MailPath,
    answer: Renamed,
    done: &mut RenameLog,
) -> Result<(), NoMemory>
    ensures unmoved { OnOk result (done.new.unmoved ≡ done.old.unmoved ++ unmoved_by from answer) }
    ensures moves { OnOk result (done.new.moves ≡ done.old.moves ++ move_if from to answer) }
    ensures places { OnOk result ((files : List (List ℕ × Facts)) → has_path files to ≡ false → HasPlaces shown.now.files files done.old.places
        → HasPlaces shown.now.files (files_moved files from to answer) done.new.places) }
{
    match answer {
        Renamed::Moved => keep_move(shown, from, to, done),
        Renamed::Missing => done.unmoved.push((from, Unmoved::Missing)),
        Renamed::Exists => done.unmoved.push((from, Unmoved::Exists)),
    }
}

/// Keeps a move. Where no file of the index was at the old path, none is at the new one.
fn keep_move(
    shown: &Snapshot,
    from: MailPath,
    to: MailPath,
    done: &mut RenameLog,
) -> Result<(), NoMemory>
    ensures unmoved { done.new.unmoved ≡ done.old.unmoved }
    ensures moves { OnOk result (done.new.moves ≡ done.old.moves ++ Change.Move from to ∷ []) }
    ensures places { OnOk result ((files : List (List ℕ × Facts)) → has_path files to ≡ false → HasPlaces shown.now.files files done.old.places
        → HasPlaces shown.now.files (with_moved files from to) done.new.places) }
{
    let there = has_place(shown, &done.places, &from);
    done.places.insert(from.copy()?, false)?;
    done.places.insert(to.copy()?, there)?;
    done.moves.push(Change::Move { from, to })
}
