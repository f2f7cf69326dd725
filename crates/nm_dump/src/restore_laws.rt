//! What a `restore` comes to. No code calls these functions: their clauses are the laws.

ghost use Rattle.std.specs.Prelude.{◌≡◌, ◌≢◌, ℕ, ℤ, Bool, IsTrue, List, false};
ghost use Rattle.nm_model_answer.specs.Dump.{dump, dump_text, tagged};
ghost use Rattle.nm_model_answer.specs.Restore.{restorings_by, restorings_of};
ghost use Rattle.nm_model_answer.specs.WantedTags.{wanted_by};
ghost use Rattle.nm_model_answer.specs.View.{tags_of};
ghost use Rattle.nm_base.specs.Order.{sorted};
ghost use Rattle.nm_dump.specs.ReadBack.{wanted_from, AreFitForSup, AreMessages};
ghost use Rattle.nm_dump.specs.Restored.{after_restore, is_live, is_named_in, restored_tags, HaveTheirTags, StandOnce};
ghost use Rattle.nm_model_index.specs.Valid.{IsValid};
ghost use Rattle.nm_model_index.specs.declared.base.Base.{Base};
ghost use Rattle.nm_model_plan.specs.Numbering.{AreNumbered};
ghost use Rattle.nm_tags.specs.declared.wanted.Wanted.{Wanted};

use crate::laws::{a_written_dump_is_read_back, a_written_sup_dump_is_read_back};
use nm_base::{DumpForm, ReadForm};
use nm_model_plan::{a_line_tags_what_it_finds, the_commit_of_tags_leaves_what_is_wanted};

/// After the lines of a dump each live message has the tags that its lines say. A message that no line names keeps its tags,
/// and so does one that has no file.
pub fn a_restore_sets_the_tags_of_each_message()
    ensures live { (accumulate : Bool) (moment : ℤ) (index : Base) (lines : List Wanted) (id : List ℕ) → IsTrue (is_live index id)
        → tags_of (wanted_by moment index (restorings_by accumulate lines)) id ≡ restored_tags accumulate lines id (tags_of index id) }
    ensures unnamed { (accumulate : Bool) (moment : ℤ) (index : Base) (lines : List Wanted) (id : List ℕ) → is_named_in lines id ≡ false
        → tags_of (wanted_by moment index (restorings_by accumulate lines)) id ≡ tags_of index id }
    ensures strangers { (accumulate : Bool) (moment : ℤ) (index : Base) (lines : List Wanted) (id : List ℕ) → is_live index id ≡ false
        → tags_of (wanted_by moment index (restorings_by accumulate lines)) id ≡ tags_of index id }
{
    a_line_tags_what_it_finds();
}

/// A dump that is restored gives each of its messages that is live the tags that it was written with, and no others; so a dump
/// of an index gives them, in this index or in another, those that they had.
pub fn a_dump_restores_its_tags()
    ensures lines { (moment : ℤ) (index : Base) (number : ℕ) (messages : List (List ℕ × List (List ℕ))) → StandOnce messages
        → HaveTheirTags index (wanted_by moment index (restorings_by false (wanted_from number messages))) messages }
    ensures changes { (moment : ℤ) (index : Base) (form : ReadForm) (messages : List (List ℕ × List (List ℕ))) → form ≢ ReadForm.Sup → AreMessages messages → StandOnce messages
        → HaveTheirTags index (wanted_by moment index (restorings_of (record { form = form; accumulate = false }) (dump_text DumpForm.BatchTag messages))) messages }
    ensures sup { (moment : ℤ) (index : Base) (messages : List (List ℕ × List (List ℕ))) → AreMessages messages → AreFitForSup messages → StandOnce messages
        → HaveTheirTags index (wanted_by moment index (restorings_of (record { form = ReadForm.Sup; accumulate = false }) (dump_text DumpForm.Sup messages))) messages }
    ensures index { (moment : ℤ) (old index : Base) (form : ReadForm) (ids : List (List ℕ)) → form ≢ ReadForm.Sup → IsValid old → AreMessages (tagged old (sorted ids))
        → HaveTheirTags index (wanted_by moment index (restorings_of (record { form = form; accumulate = false }) (dump DumpForm.BatchTag old ids))) (tagged old (sorted ids)) }
    ensures index_sup { (moment : ℤ) (old index : Base) (ids : List (List ℕ)) → IsValid old → AreMessages (tagged old (sorted ids)) → AreFitForSup (tagged old (sorted ids))
        → HaveTheirTags index (wanted_by moment index (restorings_of (record { form = ReadForm.Sup; accumulate = false }) (dump DumpForm.Sup old ids))) (tagged old (sorted ids)) }
{
    a_restore_sets_the_tags_of_each_message();
    a_written_dump_is_read_back();
    a_written_sup_dump_is_read_back();
}

/// And so it is in the index once the commit of the restore is made: each message of the dump that is live has the tags
/// that it had in the index which the dump is of.
pub fn a_restored_dump_is_in_the_index()
    ensures changes { (moment : ℤ) (old index : Base) (form : ReadForm) (ids : List (List ℕ)) → form ≢ ReadForm.Sup → IsValid old → AreMessages (tagged old (sorted ids)) → AreNumbered index
        → HaveTheirTags index (after_restore moment index (record { form = form; accumulate = false }) (dump DumpForm.BatchTag old ids)) (tagged old (sorted ids)) }
    ensures sup { (moment : ℤ) (old index : Base) (ids : List (List ℕ)) → IsValid old → AreMessages (tagged old (sorted ids)) → AreFitForSup (tagged old (sorted ids)) → AreNumbered index
        → HaveTheirTags index (after_restore moment index (record { form = ReadForm.Sup; accumulate = false }) (dump DumpForm.Sup old ids)) (tagged old (sorted ids)) }
{
    a_dump_restores_its_tags();
    the_commit_of_tags_leaves_what_is_wanted();
}
