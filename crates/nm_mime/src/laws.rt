//! What follows from the definitions of the tree. No code calls these functions: their clauses are the laws.

ghost use Rattle.std.specs.Prelude.{◌≡◌, List, ℕ, ◌∷◌, ◌++◌, false, length, map, suc, true};
ghost use Rattle.std.specs.List.{flat_map, list_all, list_any};
ghost use Rattle.nm_text.specs.Cuts.{is_byte};
ghost use Rattle.nm_text.specs.Lines.{is_one_line, lines_of};
ghost use Rattle.nm_mime.specs.Children.{delimiters_of};
ghost use Rattle.nm_mime.specs.Laws.{AreApart, GoDown, is_kept, is_writable, parts_between, read_parts, written_params, written_parts};
ghost use Rattle.nm_mime.specs.Params.{params_of};
ghost use Rattle.nm_mime.specs.declared.param_list.Param.{Param};
ghost use Rattle.nm_mime.specs.Parts.{IsInside, children_of, inside, opening_of, parts_of, parts_upto};
ghost use Rattle.nm_mime.specs.declared.entity.Entity.{Entity};
ghost use Rattle.nm_mime.specs.declared.entity.Opening.{Opening};
ghost use Rattle.nm_mime.specs.WrittenParams.{WrittenParam, is_written, params_as_written};

/// The parts in a part come one after the other, inside its content.
pub fn parts_in_a_part_stand_apart()
    ensures { (mail : List ℕ) → (opening : Opening) → IsInside (length mail) opening.part → AreApart opening.part.from opening.part.to (inside mail opening) }
{}

/// The first part is the mail itself, and each other is at most one level deeper than the one before it.
pub fn a_part_stands_before_those_in_it()
    ensures { (mail : List ℕ) → GoDown 0 (parts_of mail) }
{}

/// A part comes before those in it, and after all that are in its elder siblings.
pub fn elder_siblings_come_first()
    ensures { (n : ℕ) → (mail : List ℕ) → (entity : Entity) → parts_upto (suc n) mail entity ≡ (opening_of mail entity).part ∷ flat_map (parts_upto n mail) (children_of mail (opening_of mail entity)) }
{}

/// The parts in the content of a multipart are what is between neighbouring delimiter lines, up to the first closing
/// one; a delimiter takes the line end before it.
pub fn parts_stand_between_delimiters()
    ensures { (boundary : List ℕ) → (bytes : List ℕ) → read_parts (delimiters_of boundary) bytes ≡ parts_between (delimiters_of boundary) (lines_of bytes) }
{}

/// The parts that are written into a multipart are read again, if none of their lines ends a part.
pub fn written_parts_are_read()
    ensures { (boundary : List ℕ) → (parts : List (List ℕ)) → is_one_line boundary ≡ true → list_all (is_kept (delimiters_of boundary)) parts ≡ true → read_parts (delimiters_of boundary) (written_parts (delimiters_of boundary) parts) ≡ parts }
{}

/// Parameters that are written, each as `; name="value"`, are read again in their order.
pub fn written_params_are_read()
    ensures { (params : List Param) → list_all is_writable params ≡ true → params_of (written_params params) ≡ params }
{}

/// Parameters that are written as `; name=value` after a text without `;` are read again in their order, the values in quotes or as
/// they are. A value without quotes ends at a `;` or at white space, and what follows a value up to the next `;` counts for nothing.
pub fn unquoted_params_are_read()
    ensures { (front : List ℕ) → (params : List WrittenParam) → list_any (is_byte 59) front ≡ false → list_all is_written params ≡ true → params_of (front ++ params_as_written params) ≡ map (λ one. one.param) params }
{}
