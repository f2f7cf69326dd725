//! What the reading of an input comes to. No code calls these functions: their clauses are the laws.

ghost use Rattle.nm_model_answer.specs.BatchLines.{count_line, queries_in, tag_line, taggings_in};
ghost use Rattle.nm_model_answer.specs.declared.tag_change.TagChange.{TagChange};
ghost use Rattle.nm_batch.specs.LineByLine.{AreRead, IsFirstBad};
ghost use Rattle.nm_query.specs.declared.query.Query.{Query};
ghost use Rattle.nm_tags.specs.declared.line_error.LineKind.{LineKind};
ghost use Rattle.std.specs.Prelude.{◌≡◌, ◌+◌, ◌++◌, ℕ, Bool, List, length, Ok, Err};
ghost use Rattle.std.specs.Str.Lines.{lines};

/// Queries are read line by line, or the first line that is none is reported.
pub fn queries_are_read_line_by_line()
    ensures read { (input : List ℕ) (read : List Query) → queries_in input ≡ Ok read → AreRead count_line (lines input) read }
    ensures bad { (input : List ℕ) (number : ℕ) (kind : LineKind) → queries_in input ≡ Err (number, kind) → IsFirstBad count_line (lines input) number kind }
{}

/// Changes of tags are read line by line, or the first line that is none is reported.
pub fn changes_are_read_line_by_line()
    ensures read { (clear : Bool) (input : List ℕ) (read : List TagChange) → taggings_in clear input ≡ Ok read → AreRead (tag_line clear) (lines input) read }
    ensures bad { (clear : Bool) (input : List ℕ) (number : ℕ) (kind : LineKind) → taggings_in clear input ≡ Err (number, kind) → IsFirstBad (tag_line clear) (lines input) number kind }
{}

/// After lines that are read the others are read as they are by themselves: so a fault stays the same, and the number of
/// its line is as much greater as there are lines before.
pub fn lines_before_move_a_fault_and_leave_it()
    ensures queries_read { (good rest whole : List ℕ) (read more : List Query) → lines whole ≡ lines good ++ lines rest → queries_in good ≡ Ok read → queries_in rest ≡ Ok more → queries_in whole ≡ Ok (read ++ more) }
    ensures queries_bad { (good rest whole : List ℕ) (read : List Query) (number : ℕ) (kind : LineKind) → lines whole ≡ lines good ++ lines rest → queries_in good ≡ Ok read → queries_in rest ≡ Err (number, kind) → queries_in whole ≡ Err (length (lines good) + number, kind) }
    ensures changes_read { (clear : Bool) (good rest whole : List ℕ) (read more : List TagChange) → lines whole ≡ lines good ++ lines rest → taggings_in clear good ≡ Ok read → taggings_in clear rest ≡ Ok more → taggings_in clear whole ≡ Ok (read ++ more) }
    ensures changes_bad { (clear : Bool) (good rest whole : List ℕ) (read : List TagChange) (number : ℕ) (kind : LineKind) → lines whole ≡ lines good ++ lines rest → taggings_in clear good ≡ Ok read → taggings_in clear rest ≡ Err (number, kind) → taggings_in clear whole ≡ Err (length (lines good) + number, kind) }
{}
