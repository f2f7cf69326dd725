//! Committing and publishing: snapshots that one writer shows and many readers see without waiting. What a reader sees
//! never lags after what it saw or learned before, and all see beginnings of one list of commits.
#![tactic(auto)]

mod across;
mod block;
mod event;
mod list;
mod publication;
mod publisher;
mod reader;
mod rule;
mod seats;
mod shown;
mod slot;
mod start_point;

pub use across::a_reader_may_go;
pub use publisher::Shower;
pub use reader::Reader;
pub use shown::Shown;
pub use start_point::{Started, start};
