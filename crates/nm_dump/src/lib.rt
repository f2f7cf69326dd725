//! Commands and replies: dumps of tags, written and read line by line in either form.
#![tactic(auto)]

mod dump_reader;
mod dump_writer;
mod ids;
mod laws;
mod line_writer;
mod reply;
mod restore;
mod restore_laws;
mod sup;

pub use dump_reader::read_dump;
pub use dump_writer::dump;
pub use laws::{
    a_written_dump_is_read_back, a_written_id_is_read_back, a_written_line_is_read_back,
    a_written_sup_dump_is_read_back, written_tags_are_restored,
};
pub use reply::dump_reply;
pub use restore::{DumpChanges, restoring};
pub use restore_laws::{
    a_dump_restores_its_tags, a_restore_sets_the_tags_of_each_message,
    a_restored_dump_is_in_the_index,
};
