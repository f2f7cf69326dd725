//! What the ids say that a query names, and what is at numbers. These functions run no code: their clauses are the
//! laws, which `matches` and `nm_writer` call.

ghost use Rattle.std.specs.Prelude.{◌≡◌, [], ℕ, ℤ, List, Some, IsTrue};
ghost use Rattle.std.specs.List.{filter};
ghost use Rattle.std.specs.Map.{values_of};
ghost use Rattle.nm_base.specs.Order.{has_text};
ghost use Rattle.nm_model_index.specs.Index.{live_ids};
ghost use Rattle.nm_model_index.specs.declared.base.Base.{Base};
ghost use Rattle.nm_query.specs.declared.query.Query.{Query};
ghost use Rattle.nm_model_answer.specs.Test.{passes};
ghost use Rattle.nm_model_answer.specs.View.{View};
ghost use Rattle.nm_eval.specs.NamedIds.{named_ids};
ghost use Rattle.nm_eval.specs.Numbers.{live_at_numbers};

use nm_model_answer::a_tree_passes_as_its_queries_do;

/// Of a query that names ids each message that passes it has one of them.
pub fn what_passes_is_named()
    ensures { (query : Query) (ids : List (List ℕ)) (message : View) (moment : ℤ) → named_ids query ≡ Some ids → IsTrue (passes query message moment)
        → IsTrue (has_text ids message.id) }
{
    a_tree_passes_as_its_queries_do();
}

/// Of no messages none is at a number, and those that do are the live ones, by their numbers.
pub fn the_live_ones_stand_at_their_numbers()
    ensures none { (index : Base) → live_at_numbers index [] ≡ [] }
    ensures live { (index : Base) (ids : List (List ℕ)) → values_of (live_at_numbers index ids) ≡ filter (has_text ids) (live_ids index.files index.entries) }
{}
