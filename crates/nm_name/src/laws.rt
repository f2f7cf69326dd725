//! What names and flags come to. These functions run no code: their clauses are the laws, of which `nm_flags` calls one.

ghost use Rattle.std.specs.Prelude.{◌≡◌, ◌≢◌, ℕ, List, ◌++◌, ◌∷◌, [], false, codes};
ghost use Rattle.nm_name.specs.Cuts.{holds};
ghost use Rattle.nm_name.specs.Names.{flags_of, flags_of_letters, letters_of, name_of};
ghost use Rattle.nm_name.specs.FlaggedPath.{AreInOrder, AreLetters, is_asked, marked, may_be_renamed, new_letters, renamed};
ghost use Rattle.nm_name.specs.Stems.{IsNamed, IsParent};
ghost use Rattle.nm_name.specs.declared.flags.Flags.{Flags};

/// A name that is written carries the flags that were asked for, and T where it had it. So each path that is changed does.
pub fn what_is_written_is_read()
    ensures name { (folder name : List ℕ) (flags : Flags) → holds 47 name ≡ false
        → flags_of (folder ++ 47 ∷ marked name (new_letters (letters_of name) flags)) ≡ record flags { trashed = holds 84 (letters_of name) } }
    ensures path { (path : List ℕ) (flags : Flags) → renamed path flags ≢ path → flags_of (renamed path flags) ≡ record flags { trashed = (flags_of path).trashed } }
{}

/// A path that carries the flags is left alone: one that was renamed for them stays, and so does one in `cur` whose letters say
/// them and are in ASCII order, each once.
pub fn a_path_that_carries_its_flags_stays()
    ensures again { (path : List ℕ) (flags : Flags) → renamed (renamed path flags) flags ≡ renamed path flags }
    ensures own { (folder stem letters : List ℕ) (flags : Flags) → name_of folder ≡ codes "cur" → holds 47 stem ≡ false → AreLetters letters → AreInOrder letters
        → flags_of_letters letters ≡ record flags { trashed = holds 84 letters }
        → renamed (folder ++ 47 ∷ (stem ++ codes ":2," ++ letters)) flags ≡ folder ++ 47 ∷ (stem ++ codes ":2," ++ letters) }
{}

/// Letters other than the five stay as they are.
pub fn other_letters_stay()
    ensures { (letters : List ℕ) (flags : Flags) (letter : ℕ) → AreLetters letters → is_asked letter ≡ false
        → holds letter (new_letters letters flags) ≡ holds letter letters }
{}

/// A name that may not be renamed stays.
pub fn a_name_that_may_not_be_renamed_stays()
    ensures { (folder name : List ℕ) (flags : Flags) → holds 47 name ≡ false → may_be_renamed name ≡ false
        → renamed (folder ++ 47 ∷ name) flags ≡ folder ++ 47 ∷ name }
{}

/// A file in `new` that is to carry letters goes to the `cur` beside it, and one in `cur` stays there. Each keeps its stem, which
/// `:2,` and the letters follow. With no letters to carry a file in `new` stays, and so does a name without `:`.
pub fn a_renamed_file_keeps_its_stem()
    ensures new { (parent name stem letters : List ℕ) (flags : Flags) → IsParent parent → IsNamed name stem letters → holds 47 name ≡ false → new_letters letters flags ≢ []
        → renamed (parent ++ (codes "new/" ++ name)) flags ≡ parent ++ (codes "cur/" ++ (stem ++ codes ":2," ++ new_letters letters flags)) }
    ensures cur { (parent name stem letters : List ℕ) (flags : Flags) → IsParent parent → IsNamed name stem letters → holds 47 name ≡ false → new_letters letters flags ≢ []
        → renamed (parent ++ (codes "cur/" ++ name)) flags ≡ parent ++ (codes "cur/" ++ (stem ++ codes ":2," ++ new_letters letters flags)) }
    ensures none_left { (parent stem letters : List ℕ) (flags : Flags) → IsParent parent → AreLetters letters → holds 47 stem ≡ false → new_letters letters flags ≡ []
        → renamed (parent ++ (codes "cur/" ++ (stem ++ codes ":2," ++ letters))) flags ≡ parent ++ (codes "cur/" ++ (stem ++ codes ":2,")) }
    ensures none_in_new { (parent name stem letters : List ℕ) (flags : Flags) → IsParent parent → IsNamed name stem letters → holds 47 name ≡ false → new_letters letters flags ≡ []
        → renamed (parent ++ (codes "new/" ++ name)) flags ≡ parent ++ (codes "new/" ++ name) }
    ensures none_in_cur { (parent stem : List ℕ) (flags : Flags) → IsParent parent → holds 58 stem ≡ false → holds 47 stem ≡ false → new_letters [] flags ≡ []
        → renamed (parent ++ (codes "cur/" ++ stem)) flags ≡ parent ++ (codes "cur/" ++ stem) }
{}

/// A file whose folder is neither a `new` nor a `cur` stays.
pub fn a_file_elsewhere_stays()
    ensures { (folder name : List ℕ) (flags : Flags) → holds 47 name ≡ false → name_of folder ≢ codes "new" → name_of folder ≢ codes "cur"
        → renamed (folder ++ 47 ∷ name) flags ≡ folder ++ 47 ∷ name }
{}
