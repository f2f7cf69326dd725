//! The model: the flags that the name of a mail file carries (maildir(5)), read and written.
#![tactic(auto)]

mod cuts;
mod flagged_path;
mod flags;
mod laws;
mod names;

pub use flagged_path::{NameError, with_flags};
pub use flags::Flags;
pub use laws::{
    a_file_elsewhere_stays, a_name_that_may_not_be_renamed_stays,
    a_path_that_carries_its_flags_stays, a_renamed_file_keeps_its_stem, other_letters_stay,
    what_is_written_is_read,
};
pub use names::parse_name;
