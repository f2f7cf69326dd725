//! What follows from the definitions of what a query finds. These functions run no code: their clauses are the laws,
//! which `nm_eval` calls.

ghost use Rattle.std.specs.Prelude.{◌≡◌, ◌↔◌, ◌∷◌, ◌++◌, ℕ, ℤ, Bool, List, [], IsTrue, false, map, not, true};
ghost use Rattle.std.specs.List.{IsDistinct, list_all, list_any};
ghost use Rattle.nm_base.specs.Order.{has_text, same_text};
ghost use Rattle.nm_commit.specs.Files.{has_id};
ghost use Rattle.nm_model_index.specs.Valid.{IsValid};
ghost use Rattle.nm_model_index.specs.declared.base.Base.{Base};
ghost use Rattle.nm_query.specs.declared.query.Query.{Query};
ghost use Rattle.nm_query.specs.declared.query.Query.TheVariants as tree;
ghost use Rattle.nm_model_answer.specs.Matches.{Excludes, is_excluded, is_match, matches_of, names_tag};
ghost use Rattle.nm_model_answer.specs.Runs.{Stand, StandWithFront};
ghost use Rattle.nm_model_answer.specs.Test.{is_odd, passes};
ghost use Rattle.nm_model_answer.specs.View.{View, view_of};
ghost use Rattle.nm_base.specs.AskedWords.{has_words};

/// A list has words exactly where they are in it one after the other; the last one may be the front of a word where that is
/// asked.
pub fn words_stand_one_after_the_other()
    ensures whole { (words list : List (List ℕ)) → IsTrue (has_words false words list) ↔ Stand words list }
    ensures front { (words list : List (List ℕ)) (last : List ℕ) → IsTrue (has_words true (words ++ last ∷ []) list) ↔ StandWithFront words last list }
{}

/// A message passes a negation where it doesn't pass the query, and a list where it passes all, one or an odd number of its
/// queries.
pub fn a_tree_passes_as_its_queries_do()
    ensures negation { (query : Query) (message : View) (moment : ℤ) → passes (tree.Not query) message moment ≡ not (passes query message moment) }
    ensures all { (queries : List Query) (message : View) (moment : ℤ) → passes (tree.And queries) message moment ≡ list_all (λ query. passes query message moment) queries }
    ensures one { (queries : List Query) (message : View) (moment : ℤ) → passes (tree.Or queries) message moment ≡ list_any (λ query. passes query message moment) queries }
    ensures odd { (queries : List Query) (message : View) (moment : ℤ) → passes (tree.Xor queries) message moment ≡ is_odd (map (λ query. passes query message moment) queries) }
{}

/// A query names the tags of its terms, wherever they are in its tree.
pub fn a_tree_names_the_tags_of_its_queries()
    ensures term { (named tag : List ℕ) → names_tag (tree.Tag named) tag ≡ same_text tag named }
    ensures negation { (query : Query) (tag : List ℕ) → names_tag (tree.Not query) tag ≡ names_tag query tag }
    ensures all { (queries : List Query) (tag : List ℕ) → names_tag (tree.And queries) tag ≡ list_any (λ query. names_tag query tag) queries }
    ensures one { (queries : List Query) (tag : List ℕ) → names_tag (tree.Or queries) tag ≡ list_any (λ query. names_tag query tag) queries }
    ensures odd { (queries : List Query) (tag : List ℕ) → names_tag (tree.Xor queries) tag ≡ list_any (λ query. names_tag query tag) queries }
{}

/// A message is excluded where it has one of the tags `deleted` and `spam` that the query doesn't name.
pub fn a_tag_excludes_unless_it_is_named()
    ensures { (query : Query) (message : View) → IsTrue (is_excluded query message) ↔ ((tag : List ℕ) × Excludes query message tag) }
{}

/// The matches are the live messages that pass the query and aren't excluded, each given once.
pub fn the_matches_are_the_live_messages_that_pass()
    ensures found { (index : Base) (query : Query) (moment : ℤ) (exclude : Bool) (id : List ℕ) → IsValid index
        → IsTrue (has_text (matches_of index query moment exclude) id) ↔ (IsTrue (has_id index.files id) × IsTrue (is_match query moment exclude (view_of index id))) }
    ensures once { (index : Base) (query : Query) (moment : ℤ) (exclude : Bool) → IsValid index → IsDistinct same_text (matches_of index query moment exclude) }
{}
