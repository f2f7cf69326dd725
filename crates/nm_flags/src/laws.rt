//! What tags by names, and names by tags, come to. These functions run no code: their clauses are the laws, of which
//! `nm_model_plan` calls the first two.

ghost use Rattle.std.specs.Prelude.{◌≡◌, ◌≢◌, ℕ, List, codes, false, not};
ghost use Rattle.nm_base.specs.Order.{IsSorted, has_text};
ghost use Rattle.nm_base.specs.Tags.{has_tag};
ghost use Rattle.nm_name.specs.FlaggedPath.{renamed};
ghost use Rattle.nm_flags.specs.FlagTags.{any_seen, five_tags, tags_by_names};
ghost use Rattle.nm_flags.specs.Letters.{any_has, has_letter};
ghost use Rattle.nm_flags.specs.Renames.{asked_flags};

use nm_name::what_is_written_is_read;
use nm_tags::{a_tag_that_no_operation_names_stays, the_last_operation_on_a_tag_decides};

/// A message is unread exactly where no file of it has been seen.
pub fn unread_is_what_no_file_has_seen()
    ensures { (tags paths : List (List ℕ)) → IsSorted tags → has_tag (tags_by_names tags paths) (codes "unread") ≡ not (any_seen paths) }
{
    the_last_operation_on_a_tag_decides();
}

/// No other tags than the five follow the names.
pub fn only_the_five_tags_follow_the_names()
    ensures { (tags paths : List (List ℕ)) (tag : List ℕ) → IsSorted tags → has_text five_tags tag ≡ false → has_tag (tags_by_names tags paths) tag ≡ has_tag tags tag }
{
    a_tag_that_no_operation_names_stays();
}

/// A message has each of four tags exactly where a file of it has the letter of that tag, and it is unread exactly where none has S.
pub fn each_tag_follows_its_letter()
    ensures draft { (tags paths : List (List ℕ)) → IsSorted tags → has_tag (tags_by_names tags paths) (codes "draft") ≡ any_has (codes "D") paths }
    ensures flagged { (tags paths : List (List ℕ)) → IsSorted tags → has_tag (tags_by_names tags paths) (codes "flagged") ≡ any_has (codes "F") paths }
    ensures passed { (tags paths : List (List ℕ)) → IsSorted tags → has_tag (tags_by_names tags paths) (codes "passed") ≡ any_has (codes "P") paths }
    ensures replied { (tags paths : List (List ℕ)) → IsSorted tags → has_tag (tags_by_names tags paths) (codes "replied") ≡ any_has (codes "R") paths }
    ensures unread { (tags paths : List (List ℕ)) → IsSorted tags → has_tag (tags_by_names tags paths) (codes "unread") ≡ not (any_has (codes "S") paths) }
{
    the_last_operation_on_a_tag_decides();
}

/// A file that is renamed for tags has each of four letters exactly where the tag of that letter is set, and S exactly where
/// `unread` is not. It has T where it had it.
pub fn each_letter_follows_its_tag()
    ensures draft { (tags : List (List ℕ)) (path : List ℕ) → renamed path (asked_flags tags) ≢ path → has_letter (codes "D") (renamed path (asked_flags tags)) ≡ has_tag tags (codes "draft") }
    ensures flagged { (tags : List (List ℕ)) (path : List ℕ) → renamed path (asked_flags tags) ≢ path → has_letter (codes "F") (renamed path (asked_flags tags)) ≡ has_tag tags (codes "flagged") }
    ensures passed { (tags : List (List ℕ)) (path : List ℕ) → renamed path (asked_flags tags) ≢ path → has_letter (codes "P") (renamed path (asked_flags tags)) ≡ has_tag tags (codes "passed") }
    ensures replied { (tags : List (List ℕ)) (path : List ℕ) → renamed path (asked_flags tags) ≢ path → has_letter (codes "R") (renamed path (asked_flags tags)) ≡ has_tag tags (codes "replied") }
    ensures seen { (tags : List (List ℕ)) (path : List ℕ) → renamed path (asked_flags tags) ≢ path → has_letter (codes "S") (renamed path (asked_flags tags)) ≡ not (has_tag tags (codes "unread")) }
    ensures trashed { (tags : List (List ℕ)) (path : List ℕ) → renamed path (asked_flags tags) ≢ path → has_letter (codes "T") (renamed path (asked_flags tags)) ≡ has_letter (codes "T") path }
{
    what_is_written_is_read();
}
