//! Bytes on the disk: a journal of records, each on the disk whole or not at all, whatever the moment of a crash.
#![tactic(auto)]

mod append;
mod frame;
mod journal;
mod laws;
mod receipt;
mod record_reader;

pub use frame::Frame;
pub use journal::{Journal, JournalError};
pub use laws::{
    a_sync_leaves_nothing_new, nothing_new_twice_is_nothing_new, records_are_not_broken,
    records_are_read_in_one_way,
};
pub use receipt::Receipt;
