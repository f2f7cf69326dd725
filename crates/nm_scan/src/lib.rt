//! Committing and publishing: what is learned from a mail folder: which files are listed, which of those that are read are mail,
//! and in which batches they are read.
#![tactic(auto)]

mod batch_reader;
mod bodies;
mod bodies_error;
mod classes;
mod crew;
mod files;
mod laws;
mod parts;
mod scan_error;
mod walk;

pub use batch_reader::{Mail, read_batch};
pub use bodies::{left_after, read_bodies};
pub use bodies_error::BodiesError;
pub use laws::{
    a_batch_more_is_read, a_batch_that_stops_is_unfinished, a_walk_lists_the_mail_of_the_tree,
    batches_are_finished, batches_are_what_was_read, bytes_left_go_down_in_turn,
    few_small_files_are_one_batch, no_batch_is_read_at_first,
};
pub use scan_error::ScanError;
pub use walk::list_paths;
