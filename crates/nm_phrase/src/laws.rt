//! What follows from the definitions, for `nm_lookup`. No code runs: the clauses are the laws.

ghost use Rattle.std.specs.Prelude.{◌≡◌, ◌≢◌, ◌↔◌, ℕ, Bool, false, true, List, [], ◌∷◌, map};
ghost use Rattle.std.specs.List.Sorted.{IsStrictlySortedBy};
ghost use Rattle.std.specs.Ordering.{nat_cmp};
ghost use Rattle.nm_base.specs.declared.facts.Field.{Field};
ghost use Rattle.nm_blocks.specs.declared.hit.Hit.{Hit};
ghost use Rattle.nm_cursor.specs.Sets.{IsRising, has};
ghost use Rattle.nm_segment.specs.Docs.{hits_of, numbers};
ghost use Rattle.nm_segment.specs.declared.doc_words.DocWords.{DocWords};
ghost use Rattle.nm_phrase.specs.Ends.{EndsAt};
ghost use Rattle.nm_phrase.specs.Found.{numbers_with};

use nm_cursor::set_laws;
use nm_segment::hits_are_where_the_word_stands;

/// Words find a document exactly where it has a list of the field in which they come one after the other.
pub fn documents_are_found_where_the_words_end()
    ensures { (docs : List DocWords) (field : Field) (starts : Bool) (words : List (List ℕ)) (doc : ℕ) → IsStrictlySortedBy nat_cmp (numbers docs) → words ≢ []
        → (has (numbers_with starts field words docs) doc ≡ true) ↔ ((hit : Hit) × EndsAt docs field starts words hit × (hit.doc ≡ doc)) }
{}

/// A word is in the documents of its hits: a rising list that has these is the one of the documents with the word.
pub fn a_word_is_found_where_it_hits()
    ensures { (docs : List DocWords) (field : Field) (word list : List ℕ) → IsStrictlySortedBy nat_cmp (numbers docs) → IsRising list
        → ((doc : ℕ) → has list doc ≡ has (map (λ hit. hit.doc) (hits_of docs word field)) doc) → list ≡ numbers_with false field (word ∷ []) docs }
{
    set_laws();
    hits_are_where_the_word_stands();
}
