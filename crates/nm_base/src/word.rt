//! Which texts are words, as `nm_words` finds them and the index keeps them.

ghost use Rattle.std.specs.Prelude.{◌≡◌};
ghost use Rattle.nm_base.specs.Word.{is_word};

use crate::names::fits;

/// Says whether a text is a word: it has 1 to 200 bytes, whichever they are.
pub fn is_word(text: &str) -> bool
    ensures { result ≡ is_word text.now }
{
    fits(text.as_bytes(), 200)
}
