//! Searching: an index that doesn't change while it is read. A snapshot shares with the one that it was made of what the
//! commit between them doesn't touch, and is seen as the model's index.
#![tactic(auto)]

mod additions;
mod commit_fit;
mod export;
mod fresh_numbers;
mod live_messages;
mod load;
mod messages;
mod numbers;
mod room;
mod slot_guess;
mod snapshot;
mod tag_overlay;

pub use live_messages::LiveMessages;
pub use nm_tables::{Files, MessageFiles, Paths, Tagged};
pub use room::RoomError;
pub use slot_guess::SlotGuess;
pub use snapshot::{Snapshot, a_snapshot_is_a_valid_index};
