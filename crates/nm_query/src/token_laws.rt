//! What follows from the definitions of tokens, of depth and of refusals. No code calls these functions: their clauses
//! are the laws.

ghost use Rattle.std.specs.Prelude.{◌≡◌, ◌≢◌, ◌<◌, ◌≤◌, ◌+◌, ◌++◌, ℕ, true, false, List, [], ◌∷◌, Some, None, Ok, Err, codes, length, map};
ghost use Rattle.std.specs.List.{list_all};
ghost use Rattle.nm_base.specs.Bounds.{is_white_space};
ghost use Rattle.nm_base.specs.declared.facts.Field.TheVariants as field;
ghost use Rattle.nm_base.specs.declared.limit.Limit.TheVariants.{QueryDepth};
ghost use Rattle.nm_dates.specs.declared.end.End.TheVariants.{Year};
ghost use Rattle.nm_query.specs.Answers.{answer_of};
ghost use Rattle.nm_query.specs.Faults.{structure_fault};
ghost use Rattle.nm_query.specs.Grammar.{IsQuery, placed};
ghost use Rattle.nm_query.specs.PrintedTree.{IsTerm, in_quotes};
ghost use Rattle.nm_query.specs.Samples.{after_signs, front_term, further, in_pairs, nots, words_term};
ghost use Rattle.nm_query.specs.Terms.{is_pattern, other_item, words_query};
ghost use Rattle.nm_query.specs.Tokens.{tokens_of};
ghost use Rattle.nm_query.specs.declared.query.Query.{Query};
ghost use Rattle.nm_query.specs.declared.query.Query.TheVariants as tree;
ghost use Rattle.nm_query.specs.declared.query_error.QueryError.TheVariants.{BadDate, BadQuery, Limit};
ghost use Rattle.nm_query.specs.declared.query_error.QueryKind.TheVariants as kind;
ghost use Rattle.nm_query.specs.declared.token.Operator.{Operator};
ghost use Rattle.nm_query.specs.declared.token.Operator.TheVariants.{Conjunction, Disjunction, Exclusion};
ghost use Rattle.nm_query.specs.declared.token.Placed.{Placed};
ghost use Rattle.nm_query.specs.declared.token.Token.TheVariants.{Binary, Close, Negation, Open};

/// White space parts two texts, however much of it there is, and says nothing before a text or after it.
pub fn white_space_parts_tokens()
    ensures { (first gap second : List ℕ) → (tokens others : List Placed) → list_all is_white_space gap ≡ true → gap ≢ [] → tokens_of first ≡ Ok tokens → tokens_of second ≡ Ok others → tokens_of (first ++ (gap ++ second)) ≡ Ok (tokens ++ map (further (length first + length gap)) others) }
{}

/// `*` in parentheses and negations of it are read up to 64 levels, and refused from 65 on.
pub fn depth_ends_at_64_levels()
    ensures pairs { (n : ℕ) → n ≤ 64 → answer_of (in_pairs n) ≡ Ok tree.All }
    ensures signs { (n : ℕ) → n ≤ 64 → answer_of (after_signs n) ≡ Ok (nots n) }
    ensures too_many_pairs { (n : ℕ) → 64 < n → n ≤ 32767 → answer_of (in_pairs n) ≡ Err (Limit QueryDepth) }
    ensures too_many_signs { (n : ℕ) → 64 < n → n ≤ 65535 → answer_of (after_signs n) ≡ Err (Limit QueryDepth) }
{}

/// Between two queries a parenthesis without its fellow is reported at its own place, and so are an operator and a `(`
/// that lack what should be before or after them.
pub fn a_fault_of_structure_is_told_at_its_place()
    ensures open { (at : ℕ) → (first second : List Placed) → (query other : Query) → IsQuery first query → IsQuery second other → structure_fault (first ++ placed at Open ∷ second) ≡ Some (BadQuery at kind.Paren) }
    ensures close { (at : ℕ) → (first second : List Placed) → (query other : Query) → IsQuery first query → IsQuery second other → structure_fault (first ++ placed at Close ∷ second) ≡ Some (BadQuery at kind.Paren) }
    ensures empty { (at end : ℕ) → (first second : List Placed) → (query other : Query) → IsQuery first query → IsQuery second other → structure_fault (first ++ placed at Open ∷ placed end Close ∷ second) ≡ Some (BadQuery at kind.Operand) }
    ensures last { (at : ℕ) → (operator : Operator) → (first : List Placed) → (query : Query) → IsQuery first query → structure_fault (first ++ placed at (Binary operator) ∷ []) ≡ Some (BadQuery at kind.Operand) }
    ensures first { (at : ℕ) → (operator : Operator) → (second : List Placed) → (other : Query) → IsQuery second other → structure_fault (placed at (Binary operator) ∷ second) ≡ Some (BadQuery at kind.Operand) }
    ensures negation { (at : ℕ) → (first : List Placed) → (query : Query) → IsQuery first query → structure_fault (first ++ placed at Negation ∷ []) ≡ Some (BadQuery at kind.Operand) }
{}

/// A text in quotes asks for its words, whatever it is, in any field or in the one that is named before it.
pub fn a_text_in_quotes_is_asked_for_its_words()
    ensures any { (text : List ℕ) → IsTerm (in_quotes text) (other_item (words_query None text)) }
    ensures to { (text : List ℕ) → text ≢ [] → IsTerm (codes "to:" ++ in_quotes text) (other_item (words_query (Some field.To) text)) }
    ensures body { (text : List ℕ) → text ≢ [] → IsTerm (codes "body:" ++ in_quotes text) (other_item (words_query (Some field.Body) text)) }
    ensures attachment { (text : List ℕ) → text ≢ [] → IsTerm (codes "attachment:" ++ in_quotes text) (other_item (words_query (Some field.Attachment) text)) }
    ensures from { (text : List ℕ) → text ≢ [] → is_pattern text ≡ false → IsTerm (codes "from:" ++ in_quotes text) (other_item (words_query (Some field.From) text)) }
    ensures subject { (text : List ℕ) → text ≢ [] → is_pattern text ≡ false → IsTerm (codes "subject:" ++ in_quotes text) (other_item (words_query (Some field.Subject) text)) }
{}

/// A prefix names what is asked, and one that is none is words.
pub fn a_prefix_names_what_is_asked()
    ensures fields { (tokens_of (codes "from:hi") ≡ Ok (placed 0 (words_term (Some field.From) (codes "hi")) ∷ [])) × (tokens_of (codes "to:hi") ≡ Ok (placed 0 (words_term (Some field.To) (codes "hi")) ∷ [])) × (tokens_of (codes "subject:hi") ≡ Ok (placed 0 (words_term (Some field.Subject) (codes "hi")) ∷ [])) × (tokens_of (codes "body:hi") ≡ Ok (placed 0 (words_term (Some field.Body) (codes "hi")) ∷ [])) × (tokens_of (codes "attachment:hi") ≡ Ok (placed 0 (words_term (Some field.Attachment) (codes "hi")) ∷ [])) }
    ensures unknown { (tokens_of (codes "re:hi") ≡ Ok (placed 0 (words_term None (codes "re:hi")) ∷ [])) × (tokens_of (codes "xtag:hi") ≡ Ok (placed 0 (words_term None (codes "xtag:hi")) ∷ [])) × (tokens_of (codes "hi") ≡ Ok (placed 0 (words_term None (codes "hi")) ∷ [])) }
    ensures star { (tokens_of (codes "subject:hi*") ≡ Ok (placed 0 (front_term (Some field.Subject) (codes "hi")) ∷ [])) × (tokens_of (codes "hi*") ≡ Ok (placed 0 (front_term None (codes "hi")) ∷ [])) × (tokens_of (codes "\"hi*\"") ≡ Ok (placed 0 (words_term None (codes "hi*")) ∷ [])) × (answer_of (codes "*") ≡ Ok tree.All) × (answer_of [] ≡ Ok tree.All) }
    ensures names { (answer_of (codes "tag:a") ≡ Ok (tree.Tag (codes "a"))) × (answer_of (codes "is:a") ≡ Ok (tree.Tag (codes "a"))) × (answer_of (codes "id:a@b") ≡ Ok (tree.Id (codes "a@b"))) × (answer_of (codes "mid:a@b") ≡ Ok (tree.Id (codes "a@b"))) × (answer_of (codes "mimetype:text") ≡ Ok (tree.Mime (codes "text"))) }
    ensures threads { (answer_of (codes "thread:00000000000000fe") ≡ Ok (tree.Thread (Some 254))) × (answer_of (codes "thread:00000000000000FE") ≡ Ok (tree.Thread None)) × (answer_of (codes "thread:fe") ≡ Ok (tree.Thread None)) }
    ensures folders { (answer_of (codes "folder:a/b") ≡ Ok (tree.Folder (codes "a/b"))) × (answer_of (codes "folder:\"\"") ≡ Ok (tree.Folder [])) × (answer_of (codes "path:a/b") ≡ Ok (tree.Path (codes "a/b") false)) × (answer_of (codes "path:a/**") ≡ Ok (tree.Path (codes "a") true)) × (answer_of (codes "path:**") ≡ Ok (tree.Path [] true)) }
    ensures dates { (answer_of (codes "date:2024") ≡ Ok (tree.Dates (Some (Year 2024)) (Some (Year 2024)))) × (answer_of (codes "date:2024..!") ≡ Ok (tree.Dates (Some (Year 2024)) (Some (Year 2024)))) × (answer_of (codes "date:2023..2024") ≡ Ok (tree.Dates (Some (Year 2023)) (Some (Year 2024)))) × (answer_of (codes "date:2024..") ≡ Ok (tree.Dates (Some (Year 2024)) None)) × (answer_of (codes "date:..2024") ≡ Ok (tree.Dates None (Some (Year 2024)))) × (answer_of (codes "date:..") ≡ Ok (tree.Dates None None)) }
{}

/// A name's value ends at white space or `)`, words end at `(` and `"` too, and a quoted text ends at its quote.
pub fn a_value_ends_where_its_sort_ends()
    ensures name { answer_of (codes "(tag:a(b\"c)") ≡ Ok (tree.Tag (codes "a(b\"c")) }
    ensures words { tokens_of (codes "subject:a(b)") ≡ Ok (placed 0 (words_term (Some field.Subject) (codes "a")) ∷ placed 9 Open ∷ placed 10 (words_term None (codes "b")) ∷ placed 11 Close ∷ []) }
    ensures quote { tokens_of (codes "a\"b c\"d") ≡ Ok (placed 0 (words_term None (codes "a")) ∷ placed 1 (words_term None (codes "b c")) ∷ placed 6 (words_term None (codes "d")) ∷ []) }
    ensures doubled { answer_of (codes "tag:\"a) (b \"\"c\"\"\"") ≡ Ok (tree.Tag (codes "a) (b \"c\"")) }
{}

/// `-` negates and `+` says nothing at the start of a token, where something follows at once; elsewhere both are text.
pub fn a_sign_is_read_at_the_start_of_a_token()
    ensures minus { (answer_of (codes "-tag:a") ≡ Ok (tree.Not (tree.Tag (codes "a")))) × (answer_of (codes "-(tag:a)") ≡ Ok (tree.Not (tree.Tag (codes "a")))) × (answer_of (codes "--tag:a") ≡ Ok (tree.Not (tree.Not (tree.Tag (codes "a"))))) }
    ensures plus { answer_of (codes "+tag:a") ≡ Ok (tree.Tag (codes "a")) }
    ensures text { (tokens_of (codes "a-b+c") ≡ Ok (placed 0 (words_term None (codes "a-b+c")) ∷ [])) × (tokens_of (codes "- a") ≡ Ok (placed 0 (words_term None (codes "-")) ∷ placed 2 (words_term None (codes "a")) ∷ [])) × (tokens_of (codes "+") ≡ Ok (placed 0 (words_term None (codes "+")) ∷ [])) × (answer_of (codes "tag:-a") ≡ Ok (tree.Tag (codes "-a"))) }
{}

/// An operator is a whole word, in any case and not in quotes; `not` binds closest, then `and`, then `xor`, then `or`.
pub fn an_operator_is_a_word_in_any_case()
    ensures case { tokens_of (codes "a AND b oR c xOr nOt d") ≡ Ok (placed 0 (words_term None (codes "a")) ∷ placed 2 (Binary Conjunction) ∷ placed 6 (words_term None (codes "b")) ∷ placed 8 (Binary Disjunction) ∷ placed 11 (words_term None (codes "c")) ∷ placed 13 (Binary Exclusion) ∷ placed 17 Negation ∷ placed 21 (words_term None (codes "d")) ∷ []) }
    ensures word { (tokens_of (codes "andy") ≡ Ok (placed 0 (words_term None (codes "andy")) ∷ [])) × (tokens_of (codes "\"and\"") ≡ Ok (placed 0 (words_term None (codes "and")) ∷ [])) }
    ensures binding { answer_of (codes "tag:a or tag:b xor not tag:c and tag:d") ≡ Ok (tree.Or (tree.Tag (codes "a") ∷ tree.Xor (tree.Tag (codes "b") ∷ tree.And (tree.Not (tree.Tag (codes "c")) ∷ tree.Tag (codes "d") ∷ []) ∷ []) ∷ [])) }
{}

/// A refusal is reported with the place of its cause; of the faults of tokens the least place, and else of those of
/// structure.
pub fn a_refusal_is_told_at_its_cause()
    ensures quotes { (answer_of (codes "a \"b") ≡ Err (BadQuery 2 kind.Quote)) × (answer_of (codes "tag:\"b") ≡ Err (BadQuery 4 kind.Quote)) }
    ensures values { (answer_of (codes "a subject: b") ≡ Err (BadQuery 10 kind.Value)) × (answer_of (codes "tag:") ≡ Err (BadQuery 4 kind.Value)) × (answer_of (codes "id:\"\"") ≡ Err (BadQuery 3 kind.Value)) }
    ensures absent { (answer_of (codes "a lastmod:1") ≡ Err (BadQuery 2 kind.NotHere)) × (answer_of (codes "subject:/a/") ≡ Err (BadQuery 0 kind.NotHere)) × (answer_of (codes "tag:/a/") ≡ Err (BadQuery 0 kind.NotHere)) × (answer_of (codes "path:/a/") ≡ Err (BadQuery 0 kind.NotHere)) × (answer_of (codes "query:a") ≡ Err (BadQuery 0 kind.NotHere)) × (answer_of (codes "thread:{a}") ≡ Err (BadQuery 0 kind.NotHere)) × (answer_of (codes "property:a=b") ≡ Err (BadQuery 0 kind.NotHere)) × (answer_of (codes "a from:(b)") ≡ Err (BadQuery 2 kind.NotHere)) }
    ensures dates { (answer_of (codes "a date:x") ≡ Err (BadDate 7)) × (answer_of (codes "a date:2024..x") ≡ Err (BadDate 13)) × (answer_of (codes "a date:\"2024..x\"") ≡ Err (BadDate 7)) }
    ensures structure { (answer_of (codes "tag:a)") ≡ Err (BadQuery 5 kind.Paren)) × (answer_of (codes "tag:a ((tag:b)") ≡ Err (BadQuery 6 kind.Paren)) × (answer_of (codes "tag:a and or tag:b") ≡ Err (BadQuery 6 kind.Operand)) × (answer_of (codes "tag:a ()") ≡ Err (BadQuery 6 kind.Operand)) }
    ensures order { (answer_of (codes "or ) tag:") ≡ Err (BadQuery 9 kind.Value)) × (answer_of (codes "date:x \"") ≡ Err (BadDate 5)) × (answer_of (codes "tag:a xor )") ≡ Err (BadQuery 6 kind.Operand)) × (answer_of (codes ") and") ≡ Err (BadQuery 0 kind.Paren)) × (answer_of (codes "(") ≡ Err (BadQuery 0 kind.Paren)) }
{}
