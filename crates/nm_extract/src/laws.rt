//! What follows from the definitions. No code calls these functions: their clauses are the laws.
ghost use Rattle.std.specs.Prelude.{◌≡◌, ◌++◌, ◌∷◌, ℕ, List, [], true, false};
ghost use Rattle.std.specs.List.{list_any};
ghost use Rattle.nm_base.specs.Order.{has_text, same_text};
ghost use Rattle.nm_extract.specs.Html.{strip_html_tags};
ghost use Rattle.nm_extract.specs.Ids.{links_among};
ghost use Rattle.nm_extract.specs.Laws.{AreDistinct, BeginsWith};
ghost use Rattle.nm_text.specs.Cuts.{is_byte};

/// The links of a mail are ids that it names, each once, and never its own.
pub fn a_mail_links_to_others_once()
    ensures named { (own id : List ℕ) (ids : List (List ℕ)) → has_text (links_among own ids) id ≡ true → has_text ids id ≡ true }
    ensures others { (own : List ℕ) (ids : List (List ℕ)) → has_text (links_among own ids) own ≡ false }
    ensures once { (own : List ℕ) (ids : List (List ℕ)) → AreDistinct (links_among own ids) }
{}

/// Every id that a mail names, but its own, is a link, and comes after those that are named before it.
pub fn links_stand_in_order_of_first_naming()
    ensures every { (own id : List ℕ) (ids : List (List ℕ)) → same_text id own ≡ false → has_text ids id ≡ true → has_text (links_among own ids) id ≡ true }
    ensures order { (own id : List ℕ) (before after : List (List ℕ)) → has_text (own ∷ before) id ≡ false → BeginsWith (links_among own (before ++ id ∷ after)) (links_among own before ++ id ∷ []) }
{}

/// No tag is left of a text in HTML, and a text without one stays as it is.
pub fn no_tag_is_read()
    ensures none { (text : List ℕ) → list_any (is_byte 60) (strip_html_tags text) ≡ false }
    ensures stays { (text : List ℕ) → list_any (is_byte 60) text ≡ false → strip_html_tags text ≡ text }
{}

/// The text before, between and after the tags of HTML stays, with one space for each tag; one that is not closed takes the rest.
pub fn text_outside_tags_stays()
    ensures tag { (before tag after : List ℕ) → list_any (is_byte 60) before ≡ false → list_any (is_byte 62) tag ≡ false → strip_html_tags (before ++ 60 ∷ (tag ++ 62 ∷ after)) ≡ before ++ 32 ∷ strip_html_tags after }
    ensures unclosed { (before tag : List ℕ) → list_any (is_byte 60) before ≡ false → list_any (is_byte 62) tag ≡ false → strip_html_tags (before ++ 60 ∷ tag) ≡ before ++ 32 ∷ [] }
{}
