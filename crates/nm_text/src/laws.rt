//! What follows from the definitions. These functions run no code: their clauses are the laws; `nm_header` proves its own by the first.
ghost use Rattle.std.specs.Prelude.{◌≡◌, ◌<◌, ◌+◌, ◌∷◌, List, ℕ, length, take, drop, map};
ghost use Rattle.std.specs.List.{concat, position_or_len};
ghost use Rattle.std.specs.Str.Lines.{lines};
ghost use Rattle.nm_text.specs.Cuts.{cut};
ghost use Rattle.nm_text.specs.Lines.{content, is_line_feed, lines_of};

/// The lines and the lexemes of a text are a cut of it: joined they are the text.
pub fn nothing_is_cut_away()
    ensures lines { (bytes : List ℕ) → concat (lines_of bytes) ≡ bytes }
    ensures lexemes { (more : ℕ → List ℕ → ℕ) → (bytes : List ℕ) → concat (cut more bytes) ≡ bytes }
{}

/// The first line ends with the first LF, or with the text.
pub fn the_first_line_ends_at_the_first_line_feed()
    ensures first { (bytes : List ℕ) → 0 < length bytes → lines_of bytes ≡ take (position_or_len is_line_feed bytes + 1) bytes ∷ lines_of (drop (position_or_len is_line_feed bytes + 1) bytes) }
    ensures contents { (bytes : List ℕ) → lines bytes ≡ map content (lines_of bytes) }
{}
