//! What the lists of cursors have: `nm_phrase` and others go by membership. No code runs.

ghost use Rattle.std.specs.Prelude.{ℕ, List};
ghost use Rattle.nm_cursor.specs.SetLaws.{Membership, Order};
ghost use Rattle.nm_cursor.specs.Sets.{IsRising};

/// Which documents the lists have, and that these decide a rising list.
pub fn set_laws()
    ensures membership { (left right : List ℕ) (doc : ℕ) → Membership left right doc }
    ensures order { (left right : List ℕ) → IsRising left → IsRising right → Order left right }
{}
