//! Values: ordered maps, maps by hashes and big values that snapshots share. A clone copies no item, and a change of
//! one never shows in the other.
#![tactic(auto)]

mod across;
mod hashed_map;
mod in_order;
mod items;
mod long;
mod merge;
mod pairs;
mod part;
mod places;
mod room;
mod run;
mod runs;
mod search;
mod shared;
mod shared_map;
mod shared_part;
mod table;
mod text_hash;

pub use across::{hashed_may_cross, map_may_cross, value_may_cross};
pub use hashed_map::{Hashed, HashedMap};
pub use in_order::InOrder;
pub use items::Items;
pub use pairs::Pairs;
pub use shared::Shared;
pub use shared_map::SharedMap;
