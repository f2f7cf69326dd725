//! A law of tiers that are settled. No code runs.

ghost use Rattle.std.specs.Prelude.{◌≤◌, ◌^◌, ℕ, List, length};
ghost use Rattle.nm_tiers.specs.Tiers.{AreSettled, total};

/// At most 2^20 documents that live lie in at most 24 tiers.
pub fn settled_tiers_are_few()
    ensures { (sizes : List ℕ) → AreSettled sizes → total sizes ≤ 2 ^ 20 → length sizes ≤ 24 }
{}
