//! What follows from the definitions. These functions run no code: their clauses are the laws, which `nm_phrase` calls.

ghost use Rattle.std.specs.Prelude.{◌≡◌, ◌++◌, ◌↔◌, ℕ, List, true};
ghost use Rattle.std.specs.List.{Contains};
ghost use Rattle.std.specs.List.Sorted.{IsStrictlySortedBy};
ghost use Rattle.std.specs.Ordering.{nat_cmp};
ghost use Rattle.nm_base.specs.Order.{has_text};
ghost use Rattle.nm_base.specs.declared.facts.Field.{Field};
ghost use Rattle.nm_blocks.specs.Hits.{is_rising};
ghost use Rattle.nm_blocks.specs.declared.hit.Hit.{Hit};
ghost use Rattle.nm_segment.specs.declared.doc_words.DocWords.{DocWords};
ghost use Rattle.nm_segment.specs.Docs.{IsHit, hits_of, numbers, occurrences, texts, words};

/// The hits of a word in a field are the places at which it is in a list of the field.
pub fn hits_are_where_the_word_stands()
    ensures { (docs : List DocWords) (word : List ℕ) (field : Field) (hit : Hit) → IsStrictlySortedBy nat_cmp (numbers docs) → Contains (hits_of docs word field) hit ↔ IsHit docs word field hit }
{}

/// The hits of a word in a field are in order, each once.
pub fn hits_are_in_order()
    ensures { (docs : List DocWords) (word : List ℕ) (field : Field) → IsStrictlySortedBy nat_cmp (numbers docs) → is_rising (hits_of docs word field) ≡ true }
{}

/// The hits in more documents come after those in the first.
pub fn hits_of_more_documents_follow()
    ensures { (docs more : List DocWords) (word : List ℕ) (field : Field) → hits_of (docs ++ more) word field ≡ hits_of docs word field ++ hits_of more word field }
{}

/// The words of documents are those that are somewhere in them.
pub fn words_are_those_that_stand()
    ensures { (docs : List DocWords) (word : List ℕ) → has_text (words docs) word ≡ has_text (texts (occurrences docs)) word }
{}
