//! Searching: the tables that a snapshot is made of, which are its files, the rows of mails that went, labels and tags. Each
//! counts the bytes that it takes in an index as data, and shares with its clones what no change of one touches.
#![tactic(auto)]

mod file_table;
mod hints;
mod iterators;
mod kept;
mod measured_labels;
mod measured_map;
mod measures;
mod message_tags;
mod places;
mod row_bytes;

pub use file_table::{
    FileTable, add_file, files_by_hint, files_of, has_file, is_live, move_file, paths_of,
    remove_file,
};
pub use iterators::{Files, MessageFiles, Paths, Tagged};
pub use kept::{forget_rows, keep_row};
pub use measured_labels::MeasuredLabels;
pub use measured_map::{Measured, MeasuredKey, MeasuredMap};
pub use message_tags::MessageTags;
pub use row_bytes::RowBytes;
