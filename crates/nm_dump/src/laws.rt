//! What a dump comes to when it is read. These functions run no code: their clauses are the laws, which `dump_writer` and
//! `restore_laws` call.

ghost use Rattle.std.specs.Prelude.{◌≡◌, ℕ, true, List, ◌++◌, codes, map, Ok, Some};
ghost use Rattle.std.specs.Str.{is_utf8};
ghost use Rattle.nm_base.specs.MessageId.{is_message_id};
ghost use Rattle.nm_base.specs.Order.{IsSorted};
ghost use Rattle.nm_tags.specs.Operations.{after_ops, begun_with};
ghost use Rattle.nm_model_answer.specs.BatchTag.{id_of_query, read_batch_tag};
ghost use Rattle.nm_model_answer.specs.Dump.{changes_line, dump_text, written_id};
ghost use Rattle.nm_dump.specs.Tags.{set_tag, AreTags};
ghost use Rattle.nm_dump.specs.ReadBack.{wanted_from, AreFitForSup, AreMessages};
ghost use Rattle.nm_model_answer.specs.DumpLines.{read_dump};

use nm_base::{DumpForm, ReadForm};
use nm_tags::a_written_tag_is_read_back;

/// An id is read as it was written.
pub fn a_written_id_is_read_back()
    ensures { (id : List ℕ) → is_utf8 id ≡ true → is_message_id id ≡ true → id_of_query (codes "id:" ++ written_id id) ≡ Some id }
{}

/// A line of tag changes is read as it was written: its tags are set, of its id.
pub fn a_written_line_is_read_back()
    ensures { (id : List ℕ) (tags : List (List ℕ)) → is_utf8 id ≡ true → is_message_id id ≡ true → AreTags tags
        → read_batch_tag (changes_line id tags) ≡ Ok (id, map set_tag tags) }
{
    a_written_tag_is_read_back();
}

/// A dump in the form of tag changes is read as it was written: each message once and in order, its tags set.
pub fn a_written_dump_is_read_back()
    ensures changes { (messages : List (List ℕ × List (List ℕ))) → AreMessages messages
        → read_dump (dump_text DumpForm.BatchTag messages) ReadForm.BatchTag ≡ Ok (wanted_from 2 messages) }
    ensures told { (messages : List (List ℕ × List (List ℕ))) → AreMessages messages
        → read_dump (dump_text DumpForm.BatchTag messages) ReadForm.Auto ≡ Ok (wanted_from 2 messages) }
{
    a_written_tag_is_read_back();
}

/// A dump in the form of sup is read as it was written, where no id begins with `#` and no tag holds white space.
pub fn a_written_sup_dump_is_read_back()
    ensures { (messages : List (List ℕ × List (List ℕ))) → AreMessages messages → AreFitForSup messages
        → read_dump (dump_text DumpForm.Sup messages) ReadForm.Sup ≡ Ok (wanted_from 1 messages) }
{}

/// The operations of a line that was written give its tags again, where they begin from none.
pub fn written_tags_are_restored()
    ensures { (before tags : List (List ℕ)) → IsSorted tags → after_ops (begun_with true before) (map set_tag tags) ≡ tags }
{}
