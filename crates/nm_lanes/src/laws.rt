//! What follows from the definition of a script. No code calls this function: its clauses are the law.

ghost use Rattle.std.specs.Prelude.{◌≡◌, ℕ, ◌+◌, List, length};
ghost use Rattle.std.specs.List.{filter_map};
ghost use Rattle.std.specs.Str.Lines.{lines};
ghost use Rattle.nm_lanes.specs.Places.{phases_ended, places, told_at, told_in};
ghost use Rattle.nm_lanes.specs.Script.{script_of};

/// The lines of a script are what its commands tell by their places, and the input lines that no command has, each once,
/// in the order of the input, under its phase. A phase more begins with each line `---`.
pub fn lines_are_told_where_they_stand()
    ensures lines { (bytes : List ℕ) → told_in (script_of bytes) ≡ filter_map told_at (places (lines bytes)) }
    ensures phases { (bytes : List ℕ) → length (script_of bytes).phases ≡ phases_ended (lines bytes) + 1 }
{}
