//! What follows from the definitions of queries. No code calls these functions: their clauses are the laws.

ghost use Rattle.std.specs.Prelude.{◌≡◌, ◌≢◌, ◌≤◌, ◌↔◌, ◌++◌, ℕ, List, [], None, Ok, codes, length};
ghost use Rattle.nm_base.specs.Limits.{max_query_bytes};
ghost use Rattle.nm_query.specs.Answers.{IsRead, answer_of};
ghost use Rattle.nm_query.specs.Faults.{structure_fault};
ghost use Rattle.nm_query.specs.Grammar.{IsQuery};
ghost use Rattle.nm_query.specs.Levels.{tree_of};
ghost use Rattle.nm_query.specs.PrintedTree.{IsPrinted, IsReadOrPasses, IsTerm, beside, in_parentheses, in_quotes, kind_of, side_by_side};
ghost use Rattle.nm_query.specs.Tokens.{tokens_of};
ghost use Rattle.nm_query.specs.declared.query.Query.{Query};
ghost use Rattle.nm_query.specs.declared.query.Query.TheVariants as tree;
ghost use Rattle.nm_query.specs.declared.token.Item.{Item};
ghost use Rattle.nm_query.specs.declared.token.Placed.{Placed};
ghost use Rattle.nm_query.specs.declared.token.TermKind.TheVariants as joins;

/// A text has a tree exactly where the grammar reads it, and it has that tree: so the grammar reads it in one way.
pub fn a_text_is_read_as_the_grammar_reads_it()
    ensures { (text : List ℕ) → (query : Query) → (answer_of text ≡ Ok query) ↔ IsRead text query }
{}

/// The grammar reads tokens exactly where no fault of structure is reported of them, and reads their tree.
pub fn tokens_without_a_fault_are_a_query()
    ensures tree { (tokens : List Placed) → (query : Query) → IsQuery tokens query → tree_of tokens ≡ query }
    ensures fault { (tokens : List Placed) → (query : Query) → IsQuery tokens query → structure_fault tokens ≡ None }
    ensures read { (tokens : List Placed) → structure_fault tokens ≡ None → IsQuery tokens (tree_of tokens) }
{}

/// A query that is more than white space asks the same in parentheses, unless it then passes a limit.
pub fn parentheses_change_nothing()
    ensures { (text : List ℕ) → (query : Query) → answer_of text ≡ Ok query → tokens_of text ≢ Ok [] → IsReadOrPasses (in_parentheses text) query }
{}

/// A tree that is printed in full parentheses is read back, whichever texts its terms have, unless it passes a limit.
pub fn a_printed_tree_is_read_back()
    ensures { (text : List ℕ) → (query : Query) → IsPrinted text query → IsReadOrPasses text query }
{}

/// Two terms side by side are joined by Or where both are tags, ids, threads, folders or paths, and else by And.
pub fn two_terms_of_a_kind_are_joined_by_or()
    ensures kind { (text : List ℕ) → (item : Item) → IsTerm text item → item.kind ≡ kind_of item.query }
    ensures joined { (first : List ℕ) → (second : List ℕ) → (item : Item) → (other : Item) → IsTerm first item → IsTerm second other → length (beside first second) ≤ max_query_bytes → answer_of (beside first second) ≡ Ok (side_by_side item other) }
{}

/// A tag, an id, a type and a folder can be written in quotes, whatever text they are.
pub fn a_name_in_quotes_is_a_term()
    ensures tag { (text : List ℕ) → text ≢ [] → IsTerm (codes "is:" ++ in_quotes text) (record { kind = joins.Tag; query = tree.Tag text }) }
    ensures id { (text : List ℕ) → text ≢ [] → IsTerm (codes "id:" ++ in_quotes text) (record { kind = joins.Id; query = tree.Id text }) }
    ensures mime { (text : List ℕ) → text ≢ [] → IsTerm (codes "mimetype:" ++ in_quotes text) (record { kind = joins.Other; query = tree.Mime text }) }
    ensures folder { (text : List ℕ) → IsTerm (codes "folder:" ++ in_quotes text) (record { kind = joins.Folder; query = tree.Folder text }) }
{}
