//! What setting tags does. These functions run no code: their clauses are the laws, which `nm_writer`, `nm_dump` and
//! `nm_session` call.

ghost use Rattle.std.specs.Prelude.{◌≡◌, ℕ, ℤ, Bool, IsTrue, List, false};
ghost use Rattle.std.specs.List.{AllByRecursion};
ghost use Rattle.nm_base.specs.Order.{has_text};
ghost use Rattle.nm_commit.specs.Files.{has_id};
ghost use Rattle.nm_model_index.specs.Fits.{FitInTurn};
ghost use Rattle.nm_model_index.specs.Index.{folded, live_ids};
ghost use Rattle.nm_model_index.specs.declared.base.Base.{Base};
ghost use Rattle.nm_maildir.specs.declared.given.Given.{Given};
ghost use Rattle.nm_model_plan.specs.Apart.{AreApart};
ghost use Rattle.nm_model_plan.specs.Moves.{HasTried, tag_commits};
ghost use Rattle.nm_model_answer.specs.View.{tags_of};
ghost use Rattle.nm_model_plan.specs.Numbering.{AreNumbered};
ghost use Rattle.nm_model_answer.specs.WantedTags.{asked_tags, found_by, is_found, line_sets, wanted_after, wanted_by};
ghost use Rattle.nm_model_plan.specs.TagCommit.{tag_commit};
ghost use Rattle.nm_model_answer.specs.declared.tag_change.TagChange.{TagChange};

use nm_model_index::{files_follow_their_commits, tags_of_others_stay};

/// A line gives each message that it finds the tags that it asks for, and every other message keeps its own. So a message that
/// no line finds keeps its tags. What a line finds has files, and all but tags stays as it is.
pub fn a_line_tags_what_it_finds()
    ensures found { (moment : ℤ) (index : Base) (line : TagChange) (id : List ℕ) → IsTrue (has_text (found_by moment index line) id)
        → tags_of (wanted_after moment index line) id ≡ asked_tags line (tags_of index id) }
    ensures others { (moment : ℤ) (index : Base) (line : TagChange) (id : List ℕ) → has_text (found_by moment index line) id ≡ false
        → tags_of (wanted_after moment index line) id ≡ tags_of index id }
    ensures kept { (moment : ℤ) (index : Base) (lines : List TagChange) (id : List ℕ) → is_found moment index lines id ≡ false
        → tags_of (wanted_by moment index lines) id ≡ tags_of index id }
    ensures live { (moment : ℤ) (index : Base) (line : TagChange) → AllByRecursion (λ set. IsTrue (has_id index.files set.0)) (line_sets moment index line) }
    ensures rest { (moment : ℤ) (index : Base) (lines : List TagChange)
        → wanted_by moment index lines ≡ record index { tags = (wanted_by moment index lines).tags } }
{
    tags_of_others_stay();
}

/// The commit of tags fits the index and leaves its files. Each message that has a file then has the tags that are wanted, and
/// after the lines of a `tag` so has every message.
pub fn the_commit_of_tags_leaves_what_is_wanted()
    ensures fits { (index wanted : Base) → FitInTurn index (tag_commit index wanted) }
    ensures files { (index wanted : Base) → (folded index (tag_commit index wanted)).files ≡ index.files }
    ensures live { (index wanted : Base) (id : List ℕ) → AreNumbered index → IsTrue (has_text (live_ids index.files index.entries) id)
        → tags_of (folded index (tag_commit index wanted)) id ≡ tags_of wanted id }
    ensures lines { (moment : ℤ) (index : Base) (lines : List TagChange) (id : List ℕ) → AreNumbered index
        → tags_of (folded index (tag_commit index (wanted_by moment index lines))) id ≡ tags_of (wanted_by moment index lines) id }
{
    files_follow_their_commits();
    tags_of_others_stay();
}

/// And so does the commit of the files that were moved after it, where no two files are at one path.
pub fn tag_commits_fit()
    ensures { (index wanted : Base) (noted : List Given) → AreNumbered index → AreApart index.files → HasTried index wanted noted → FitInTurn index (tag_commits index wanted noted) }
{
    files_follow_their_commits();
}
