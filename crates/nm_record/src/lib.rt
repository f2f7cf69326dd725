//! Bytes on the disk: the one encoding of commits, and its reader. A commit is a list of changes, a change its kind in one
//! byte and then its values, in the grammars of `nm_codec`.
#![tactic(auto)]

mod changes;
mod commits;
mod facts;
mod laws;
mod lens;
mod names;
mod tag_list;

pub use commits::{
    change_bytes, commit_bytes, commit_len, read_commit, read_shared_commit, write_commit,
};
pub use laws::a_base_takes_what_its_parts_take;
pub use lens::{file_len, id_len, tags_len};
