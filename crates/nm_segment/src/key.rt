//! A word as the key of a map by hashes: `gather` numbers words by it.

ghost use Rattle.std.specs.Prelude.{◌≡◌};

use std::hash::{Hash, Hasher};
use std::marker::Model;

/// A word, seen as its bytes. It is hashed by one call, where a slice of bytes is hashed byte by byte.
#[derive(Drop)]
pub struct Key<'a> {
    pub word: &'a [u8],
}

impl<'a> Model for Key<'a> {
    ghost use Rattle.std.specs.Prelude.{List, ℕ};

    ghost Value = { List ℕ };

    ghost view = { λ k. k.word.now };
}

impl<'a> PartialEq for Key<'a> {
    ghost use Rattle.nm_base.specs.Order.{same_text};
    ghost use Rattle.std.specs.Cmp.Lexicographic.{nat_list_eq_equiv};
    ghost use Rattle.std.specs.Cmp.{partial_equiv_from_equiv};

    ghost eq = { same_text };

    ghost laws = { partial_equiv_from_equiv nat_list_eq_equiv };

    fn eq(&self, other: &Key<'a>) -> bool {
        self.word == other.word
    }
}

impl<'a> Eq for Key<'a> {
    ghost use Rattle.std.specs.Cmp.Lexicographic.{nat_list_eq_equiv};

    ghost laws = { nat_list_eq_equiv };
}

impl<'a> Hash for Key<'a> {
    ghost use Rattle.std.specs.Prelude.{[], ◌∷◌};
    ghost use Rattle.nm_segment.specs.Key.{same_input};

    ghost hash_input = { λ k. k ∷ [] };

    ghost respects_eq = { same_input };

    fn hash<H: Hasher>(&self, state: &mut H) {
        state.write(self.word);
    }
}
