//! Committing and publishing: the changes that a command commits: those of the mails that were added and of the files that are
//! missing, and those of the tags that lines want; and their bytes.
#![tactic(auto)]

mod additions;
mod encoding;
mod tag_plan;
mod wanted_tags;

pub use additions::{adds, drops, ids_of};
pub use encoding::{encode_beside, encode_rest, framed};
pub use tag_plan::{Planned, message_paths, plan_tags};
pub use wanted_tags::{Wanted, wanted_by};
