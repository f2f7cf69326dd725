//! What the commits of `new` do. These functions run no code: their clauses are the laws, which `nm_writer` calls.

ghost use Rattle.std.specs.Prelude.{◌≡◌, ◌&&◌, ◌||◌, ◌++◌, ◌∷◌, ℕ, IsTrue, List, false, fold};
ghost use Rattle.std.specs.List.{AllByRecursion};
ghost use Rattle.nm_base.specs.Order.{IsSorted, has_text};
ghost use Rattle.nm_base.specs.Tags.{has_tag};
ghost use Rattle.nm_base.specs.declared.facts.Facts.{Facts};
ghost use Rattle.nm_commit.specs.Files.{has_id, has_path, paths_of};
ghost use Rattle.nm_commit.specs.declared.change.Change.{Change};
ghost use Rattle.nm_commit.specs.declared.change.Commit.{Commit};
ghost use Rattle.nm_flags.specs.FlagTags.{five_tags};
ghost use Rattle.nm_model_index.specs.Index.{applied, empty_index, folded};
ghost use Rattle.nm_model_index.specs.declared.base.Base.{Base};
ghost use Rattle.nm_model_index.specs.Fits.{FitInTurn};
ghost use Rattle.nm_model_plan.specs.Apart.{AreApart};
ghost use Rattle.nm_model_plan.specs.Numbering.{AreNumbered};
ghost use Rattle.nm_model_answer.specs.View.{tags_of};
ghost use Rattle.nm_model_plan.specs.NameTags.{commit_of, live_of, named_tags};
ghost use Rattle.nm_model_plan.specs.Plan.{AreAdded, all_added, batch_commit, batch_commits, files_after_new, new_commits, removed_commit, removed_files};

use nm_flags::only_the_five_tags_follow_the_names;
use nm_model_index::{files_follow_their_changes, files_follow_their_commits, tags_of_others_stay};
use nm_tags::tags_stay_in_order;

/// The commits of `new` fit the index, one after the other.
pub fn new_commits_fit()
    ensures { (index : Base) (listed : List (List ℕ)) (batches : List (List (List ℕ × Facts)))
        → AreAdded index.files (all_added batches) → FitInTurn index (new_commits index listed batches) }
{
    files_follow_their_commits();
}

/// However the mails are parted into batches, what was added comes after what was there, and what is missing is no
/// longer there.
pub fn the_files_after_new()
    ensures { (index : Base) (listed : List (List ℕ)) (batches : List (List (List ℕ × Facts)))
        → (folded index (new_commits index listed batches)).files ≡ files_after_new index.files listed (all_added batches) }
{
    files_follow_their_commits();
}

/// And before the missing files are removed, the files are those that were there and those of the batches.
pub fn the_files_after_batches()
    ensures { (index : Base) (batches : List (List (List ℕ × Facts)))
        → (folded index (batch_commits index batches)).files ≡ index.files ++ all_added batches }
{
    files_follow_their_commits();
}

/// After a `new` a file is in the index where it was listed and either was there or has come.
pub fn new_leaves_what_is_listed()
    ensures { (index : Base) (listed : List (List ℕ)) (batches : List (List (List ℕ × Facts))) (path : List ℕ)
        → AllByRecursion (λ arrived. IsTrue (has_text listed arrived)) (paths_of (all_added batches))
        → has_path (folded index (new_commits index listed batches)).files path
        ≡ (has_text listed path && (has_path index.files path || has_path (all_added batches) path)) }
{
    files_follow_their_commits();
}

/// No id gets a second number, and numbers rise, whatever the commits.
pub fn numbers_stay_in_order()
    ensures empty { AreNumbered empty_index }
    ensures kept { (index : Base) (commits : List Commit) → AreNumbered index → AreNumbered (folded index commits) }
{}

/// No two files are at one path, whatever commits that fit.
pub fn files_stay_apart()
    ensures empty { AreApart empty_index.files }
    ensures kept { (index : Base) (commits : List Commit) → AreApart index.files → FitInTurn index commits → AreApart (folded index commits).files }
{
    files_follow_their_commits();
}

/// A commit gives each message that it is about, and that has a file, the tags that the names of its files say; it sets no tags of
/// any other message. So what has come leaves the tags of all messages that none of it is of, and what is missing those of each
/// that loses no file.
pub fn tags_follow_the_names()
    ensures followed { (index : Base) (change : Change) (changes : List Change) (ids : List (List ℕ)) (id : List ℕ) → AreNumbered index
        → IsTrue (has_text (live_of (fold applied index (change ∷ changes)) ids) id)
        → tags_of (folded index (commit_of index (change ∷ changes) ids)) id ≡ named_tags (fold applied index (change ∷ changes)) id }
    ensures others { (index : Base) (change : Change) (changes : List Change) (ids : List (List ℕ)) (id : List ℕ) → has_text ids id ≡ false
        → tags_of (folded index (commit_of index (change ∷ changes) ids)) id ≡ tags_of (fold applied index (change ∷ changes)) id }
    ensures added { (index : Base) (added : List (List ℕ × Facts)) (id : List ℕ) → has_id added id ≡ false
        → tags_of (folded index (batch_commit index added)) id ≡ tags_of index id }
    ensures removed { (index : Base) (files : List (List ℕ × Facts)) (listed : List (List ℕ)) (id : List ℕ) → has_id (removed_files files listed) id ≡ false
        → IsTrue (has_id (folded index (removed_commit index files listed)).files id)
        → tags_of (folded index (removed_commit index files listed)) id ≡ tags_of index id }
{
    files_follow_their_changes();
    files_follow_their_commits();
    tags_of_others_stay();
}

/// Over all commits of a `new` a message that has a file before them and has one after them, the same or another, keeps each tag
/// but the five that follow the names of files.
pub fn a_message_that_stays_keeps_its_tags()
    ensures { (index : Base) (listed : List (List ℕ)) (batches : List (List (List ℕ × Facts))) (id tag : List ℕ) → IsSorted (tags_of index id) → has_text five_tags tag ≡ false
        → IsTrue (has_id index.files id) → IsTrue (has_id (folded index (new_commits index listed batches)).files id)
        → has_tag (tags_of (folded index (new_commits index listed batches)) id) tag ≡ has_tag (tags_of index id) tag }
{
    files_follow_their_changes();
    files_follow_their_commits();
    tags_of_others_stay();
    tags_stay_in_order();
    only_the_five_tags_follow_the_names();
}
