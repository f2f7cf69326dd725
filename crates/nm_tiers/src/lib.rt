//! Searching: segments in tiers, the older before the newer. Each has documents that live, at least twice as many as the next, so there
//! are few, and a merge is rare.
#![tactic(auto)]

mod laws;
mod settling;
mod tier;
mod tier_search;
mod tiers;

pub use laws::settled_tiers_are_few;
pub use tier::Tier;
pub use tiers::Tiers;
