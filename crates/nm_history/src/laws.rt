//! What follows from the definitions for single lines and for whole sessions. These functions run no code: their
//! clauses are the laws, which `nm_session` and `nm_top` call.

ghost use Rattle.std.specs.Prelude.{◌≡◌, ◌⊎◌, ℕ, ℤ, Bool, List, [], ◌∷◌, ◌++◌, IfSome, Option, None, Some, false, true};
ghost use Rattle.std.specs.Option.{option_map};
ghost use Rattle.nm_commit.specs.declared.change.Commit.{Commit};
ghost use Rattle.nm_model_index.specs.declared.base.Base.{Base};
ghost use Rattle.nm_model_machine.specs.declared.step.Step.{Step};
ghost use Rattle.nm_log.specs.declared.line_parser.ParsedLine.{ParsedLine};
ghost use Rattle.nm_log.specs.Replies.{refusal_line};
ghost use Rattle.nm_log.specs.declared.log.LineLog.{LineLog};
ghost use Rattle.nm_log.specs.declared.log.Setting.{Setting};
ghost use Rattle.nm_log.specs.declared.outcome.Outcome.{Outcome};
ghost use Rattle.nm_io.specs.Observed.{ObservedSink, ObservedStream};
ghost use Rattle.nm_maildir.specs.Observed.{ObservedMail};
ghost use Rattle.nm_maildir.specs.Tree.{moved, Tree};
ghost use Rattle.nm_maildir.specs.declared.answers.Renamed.{Renamed};
ghost use Rattle.nm_maildir.specs.declared.given.Given.{Given};
ghost use Rattle.nm_disk.specs.CrashStates.{IsImage};
ghost use Rattle.nm_disk.specs.Observed.{Moments, ObservedDisk, bytes_now};
ghost use Rattle.nm_disk.specs.declared.disk.FileNo.TheVariants as heads;
ghost use Rattle.nm_journal.specs.Moments.{IsSynced, SyncsOrFails};
ghost use Rattle.nm_writer.specs.Durable.{KeptSince};
ghost use Rattle.nm_replay.specs.StoredIndex.{HoldsIndex};
ghost use Rattle.nm_history.specs.Call.{Call, call_of, call_reads, devices, input_fault, is_session};
ghost use Rattle.nm_history.specs.Complete.{IsComplete};
ghost use Rattle.nm_history.specs.CrashPrefix.{KeepsDisk};
ghost use Rattle.nm_history.specs.History.{History};
ghost use Rattle.nm_history.specs.LineAnswers.{HasCause};
ghost use Rattle.nm_history.specs.Lines.{Before, IsIndexAt, tree_after_line};
ghost use Rattle.nm_history.specs.PrintedOut.{Prints};
ghost use Rattle.nm_history.specs.Refusals.{RefusesLine};
ghost use Rattle.nm_history.specs.Requests.{asks_to_tag, asks_to_write, refused_text_in};
ghost use Rattle.nm_history.specs.Status.{first_fault, session_status};
ghost use Rattle.nm_history.specs.UnaskedLine.{refused_done};

use nm_journal::{a_sync_leaves_nothing_new, nothing_new_twice_is_nothing_new};
use nm_replay::{
    an_index_is_held_once, what_holds_an_index_is_not_bad, what_keeps_the_limits_passes_none,
};

/// The steps have one index at a revision.
pub fn an_index_at_a_revision_is_one()
    ensures { (opening : Base) (steps : List Step) (revision : ℕ) (one other : Base)
        → IsIndexAt opening steps revision one → IsIndexAt opening steps revision other → one ≡ other }
{}

/// After a fault of the disk a line that would change the index, and whose texts are right, is told that it is closed, and by which fault;
/// or it is out of memory.
pub fn what_writes_after_a_disk_fault_is_closed()
    ensures { (outcome : Outcome) (line : ParsedLine) (input : List ℕ) (before : Before) (index : Base) (moment : ℤ) (noted : List Given) (mail : ℕ) (failed : Bool) (fault : ℕ)
        → before.closed ≡ Some fault → asks_to_write line ≡ true → refused_text_in line input ≡ None
        → HasCause outcome line input before index moment noted mail failed → (outcome ≡ Outcome.Closed fault) ⊎ (outcome ≡ Outcome.NoMemory) }
{}

/// Where no disk failed in an earlier line, no line is told that the index is closed.
pub fn no_line_is_closed_without_a_fault()
    ensures { (line : ParsedLine) (input : List ℕ) (before : Before) (index : Base) (moment : ℤ) (noted : List Given) (mail : ℕ) (failed : Bool) (fault : ℕ)
        → before.closed ≡ None → HasCause (Outcome.Closed fault) line input before index moment noted mail failed → ⊥ }
{}

/// A script has status 4 where the disk is the first device to fail, whatever the lines after it answer.
pub fn a_disk_fault_is_the_status()
    ensures { (front back : List LineLog) (log : LineLog) (out_failed : Bool) → first_fault front ≡ None → log.outcome ≡ Outcome.DiskFault
        → session_status (front ++ log ∷ back) out_failed ≡ 4 }
{}

/// And 3 where it is the mail folder.
pub fn a_mail_fault_is_the_status()
    ensures { (front back : List LineLog) (log : LineLog) (out_failed : Bool) → first_fault front ≡ None → log.outcome ≡ Outcome.MailFault
        → session_status (front ++ log ∷ back) out_failed ≡ 3 }
{}

/// A session with such a history is complete.
pub fn a_history_is_complete()
    ensures { (call : Call) → History call → IsComplete call }
{
    what_holds_an_index_is_not_bad();
    what_keeps_the_limits_passes_none();
}

/// A writer whose commits are kept since the opening, and since the entry where no write was pending then, leaves them on the
/// disk at every moment of the call, and the banks as they were.
pub fn a_session_keeps_its_commits()
    ensures { (opening : Base) (commits : List Commit) (acked : List ℕ) (before opened now : Moments) → IsImage before.present before.present.now
        → IsImage now.present now.present.now → HoldsIndex (bytes_now before heads.Head) opening
        → IsSynced before opened → (before.present.written ≡ [] → KeptSince opening commits acked before now) → KeptSince opening commits acked opened now
        → KeepsDisk commits acked before now }
{
    an_index_is_held_once();
    nothing_new_twice_is_nothing_new();
    a_sync_leaves_nothing_new();
}

/// Where no index is opened, a crash leaves the one that the disk held, and the banks as they were.
pub fn a_refused_opening_keeps_the_index()
    ensures { (before now : Moments) → IsImage before.present before.present.now → IsImage now.present now.present.now → SyncsOrFails before now
        → KeepsDisk [] [] before now }
{
    a_sync_leaves_nothing_new();
}

/// A single command that is refused before the mail folder and the disk are asked has such a history, where its one line is in the log and its
/// text is said.
pub fn a_refused_line_is_a_history()
    ensures { (why : Outcome) (input : List ℕ) (words : List (List ℕ)) (setting : Setting) (mail : ObservedMail) (disk : ObservedDisk) (old new : ObservedStream) (out err said : ObservedSink)
        → is_session words ≡ false → RefusesLine why input words old new → Prints (Some (refusal_line why)) err said → IfSome disk.told (λ moments. IsImage moments.present moments.present.now)
        → History (call_of words setting (devices mail disk old out err) (devices mail disk new out said) (refused_done why mail.faults disk.faults)) }
{}

/// A call that reads no input is not refused for one.
pub fn a_call_that_reads_nothing_is_not_refused_for_its_input()
    ensures { (words : List (List ℕ)) (input : List ℕ) → call_reads words ≡ false → input_fault words input ≡ None }
{}

/// A line that sets tags leaves the tree with each file at the path to which it was moved, one move after the other; every other line leaves
/// the tree as it is.
pub fn the_tree_follows_renames()
    ensures moved { (line : ParsedLine) (tree : Tree) (noted : List Given) (from to : List ℕ) → asks_to_tag line ≡ true
        → tree_after_line line (noted ++ Given.Renamed from to Renamed.Moved ∷ []) (Some tree) ≡ option_map (λ t. moved t from to) (tree_after_line line noted (Some tree)) }
    ensures still { (line : ParsedLine) (tree : Option Tree) (noted : List Given) → asks_to_tag line ≡ false → tree_after_line line noted tree ≡ tree }
{}
