//! Laws of what is asked of a mail folder. These functions run no code: their clauses are the laws, which `nm_writer` calls.

ghost use Rattle.std.specs.Prelude.{ℕ, List, []};
ghost use Rattle.nm_base.specs.declared.facts.Facts.{Facts};
ghost use Rattle.nm_flags.specs.declared.renames.Rename.{Rename};
ghost use Rattle.nm_maildir.specs.Observed.{ObservedMail};
ghost use Rattle.nm_maildir.specs.declared.given.Given.{Given};
ghost use Rattle.nm_scan.specs.Batches.{HasReadSome};
ghost use Rattle.nm_scan.specs.Scan.{AsksNew};
ghost use Rattle.nm_sync.specs.Listed.{HasListed};
ghost use Rattle.nm_sync.specs.Noted.{since};
ghost use Rattle.nm_sync.specs.Renamed.{AreTried};
ghost use Rattle.nm_sync.specs.declared.comparison.Compared.{Compared};

/// A `new` asks the folder for the listing, and for the first of the paths that the index lacks; and so much was noted.
pub fn a_new_asks_what_it_notes()
    ensures { (old new : ObservedMail) (files : List (List ℕ × Facts)) (before listed given : List Given) (compared : Compared) (batches : List (List (List ℕ × Facts))) (left : List (List ℕ))
        → HasListed old.tree files before listed compared → HasReadSome old new listed given compared.unknown batches left → AsksNew old new files (since before given) }
{}

/// Before a rename is tried, none is noted.
pub fn no_rename_is_noted_at_first()
    ensures { (files : List (List ℕ × Facts)) (plan : List Rename) → AreTried files plan [] }
{}
