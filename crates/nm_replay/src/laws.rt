//! What follows from the definition of a stored index. These functions run no code that does a thing: their clauses
//! are the laws, which `nm_writer` and `nm_history` call.

ghost use Rattle.std.specs.Prelude.{◌≡◌, ◌++◌, ◌∷◌, [], ℕ, List, true};
ghost use Rattle.nm_base.specs.declared.limit.Limit.{Limit};
ghost use Rattle.nm_commit.specs.Files.{Fits};
ghost use Rattle.nm_commit.specs.declared.change.Commit.{Commit};
ghost use Rattle.nm_model_index.specs.Index.{committed};
ghost use Rattle.nm_model_index.specs.declared.base.Base.{Base};
ghost use Rattle.nm_record.specs.CommitGrammar.{commit_grammar};
ghost use Rattle.nm_replay.specs.StoredIndex.{HasCommits, HoldsIndex, HoldsNoIndex, HoldsWithin, PassesLimit};

use nm_journal::{records_are_not_broken, records_are_read_in_one_way};

/// Bytes hold one index at most.
pub fn an_index_is_held_once()
    ensures { (bytes : List ℕ) (one other : Base) → HoldsIndex bytes one → HoldsIndex bytes other → one ≡ other }
{
    records_are_read_in_one_way();
}

/// Bytes that hold an index are bad nowhere.
pub fn what_holds_an_index_is_not_bad()
    ensures { (bytes : List ℕ) (index : Base) (at : ℕ) → HoldsIndex bytes index → HoldsNoIndex bytes at → ⊥ }
{
    records_are_read_in_one_way();
    records_are_not_broken();
}

/// Bytes that pass a limit, reported of the record that passes it, are bad nowhere.
pub fn what_passes_a_limit_is_not_bad()
    ensures { (bytes : List ℕ) (limit : Limit) (at : ℕ) → PassesLimit bytes limit → HoldsNoIndex bytes at → ⊥ }
{
    records_are_read_in_one_way();
    records_are_not_broken();
}

/// And they are not those of an index that keeps to the limits all the way.
pub fn what_keeps_the_limits_passes_none()
    ensures { (bytes : List ℕ) (index : Base) (limit : Limit) → HoldsWithin bytes index → PassesLimit bytes limit → ⊥ }
{
    records_are_read_in_one_way();
}

/// Bytes pass one limit at most: that of the first record that passes one.
pub fn one_limit_is_passed()
    ensures { (bytes : List ℕ) (one other : Limit) → PassesLimit bytes one → PassesLimit bytes other → one ≡ other }
{
    records_are_read_in_one_way();
}

/// The bodies of commits, and after them that of one more which fits, are those of the commits up to this one.
pub fn one_commit_more_is_held()
    ensures { (bodies : List (List ℕ)) (commits : List Commit) (index : Base) (body : List ℕ) (commit : Commit) (new : Base)
        → HasCommits bodies commits index → body ≡ commit_grammar.bytes commit → commit_grammar.is_value commit ≡ true → Fits index.files commit
        → new ≡ committed index commit → HasCommits (bodies ++ body ∷ []) (commits ++ commit ∷ []) new }
{}
