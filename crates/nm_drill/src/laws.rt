//! What follows from the definitions of the store. No code calls these functions: their clauses are the laws.

ghost use Rattle.std.specs.Prelude.{◌≡◌, ◌↔◌, ◌+◌, ◌-◌, ◌*◌, ◌^◌, ◌<◌, ◌≤◌, ◌++◌, ℕ, None, Some, length, replicate};
ghost use Rattle.std.specs.Cmp.Lexicographic.{slice_cmp};
ghost use Rattle.std.specs.Fmt.{decimal};
ghost use Rattle.std.specs.Ordering.{nat_cmp};
ghost use Rattle.std.specs.declared.cmp.Ordering.TheVariants.{Less};
ghost use Rattle.nm_base.specs.Order.{IsSorted};
ghost use Rattle.nm_maildir.specs.Still.{paths_of};
ghost use Rattle.nm_drill.specs.Drill.{answered, clock_text, drill_files, drill_path, group_of, id_of, last_digits};
ghost use Rattle.nm_drill.specs.Laws.{AreOfOneGroup, Begins, IsNoReply, IsReply, IsTime};

/// Group g has the five mails from 5g - 4 to 5g.
pub fn a_group_has_five_mails()
    ensures { (g k : ℕ) → 1 ≤ k → (group_of k ≡ g) ↔ ((5 * g ≤ k + 4) × (k ≤ 5 * g)) }
{}

/// A mail that answers none is the first of its group, and looks like no reply; every other one is a reply to the first, which
/// answers none.
pub fn the_others_of_a_group_answer_its_first()
    ensures first { (j k : ℕ) → answered k ≡ None → AreOfOneGroup j k → k ≤ j }
    ensures alone { (k : ℕ) → answered k ≡ None → IsNoReply k }
    ensures others { (first k : ℕ) → 1 ≤ k → answered k ≡ Some first → Begins first k × IsReply first k }
{}

/// No two mails have one id.
pub fn no_two_mails_have_one_id()
    ensures { (j k : ℕ) → j < 2 ^ 64 → k < 2 ^ 64 → id_of j ≡ id_of k → j ≡ k }
{}

/// The paths are in byte order, in the order of the mails, so that no two are the same.
pub fn the_paths_stand_in_byte_order()
    ensures two { (j k : ℕ) → j < k → k < 100000000 → slice_cmp nat_cmp (drill_path j) (drill_path k) ≡ Less }
    ensures all { (n : ℕ) → n < 100000000 → IsSorted (paths_of (drill_files n)) }
{}

/// A number in n digits is its decimal digits with zeros before them, where these have room.
pub fn zeros_stand_before_a_number()
    ensures { (n k : ℕ) → length (decimal k) ≤ n → k < 2 ^ 64 → last_digits n k ≡ replicate (n - length (decimal k)) 48 ++ decimal k }
{}

/// A mail tells the time that comes as many seconds after midnight as its number says.
pub fn a_mail_is_dated_by_its_number()
    ensures { (k : ℕ) → k < 86400 → IsTime (clock_text k) k }
{}
