//! What follows from the definitions. These functions run no code: their clauses are the laws, which `nm_model_plan`,
//! `nm_state` and `nm_publish` call.

ghost use Rattle.std.specs.Prelude.{◌≡◌, ◌≤◌, ◌+◌, ℕ, List, false, length};
ghost use Rattle.std.specs.BTreeMap.{is_at};
ghost use Rattle.std.specs.Map.{lookup};
ghost use Rattle.std.specs.Cmp.Lexicographic.{slice_cmp};
ghost use Rattle.std.specs.Ordering.{nat_cmp};
ghost use Rattle.nm_base.specs.Order.{same_text};
ghost use Rattle.nm_commit.specs.Files.{changed, files_after};
ghost use Rattle.nm_commit.specs.declared.change.Change.{Change};
ghost use Rattle.nm_commit.specs.declared.change.Commit.{Commit};
ghost use Rattle.nm_model_index.specs.Fits.{ids_named};
ghost use Rattle.nm_model_index.specs.Index.{applied, committed, folded, with_tags};
ghost use Rattle.nm_model_index.specs.declared.base.Base.{Base};

/// The files after a change are those that the change makes of the files before, whatever threads and tags there are.
pub fn files_follow_their_changes()
    ensures { (index : Base) (change : Change) → (applied index change).files ≡ changed index.files change }
{}

/// So are the files after commits.
pub fn files_follow_their_commits()
    ensures { (index : Base) (commits : List Commit) → (folded index commits).files ≡ files_after index.files commits }
{}

/// The number of the next new id never falls.
pub fn numbers_never_fall()
    ensures { (index : Base) (change : Change) → index.next ≤ (applied index change).next }
{}

/// And it rises by no more than the ids that a commit names.
pub fn numbers_rise_with_the_ids_named()
    ensures { (index : Base) (commit : Commit) → (committed index commit).next ≤ index.next + ids_named commit.changes }
{}

/// The revision counts the commits.
pub fn the_revision_counts_the_commits()
    ensures { (index : Base) (commits : List Commit) → (folded index commits).revision ≡ index.revision + length commits }
{}

/// Setting the tags of a message leaves those of every other message.
pub fn tags_of_others_stay()
    ensures { (index : Base) (id other : List ℕ) (tags : List (List ℕ)) → same_text other id ≡ false
        → lookup (is_at (slice_cmp nat_cmp other)) (with_tags index id tags).tags ≡ lookup (is_at (slice_cmp nat_cmp other)) index.tags }
{}
