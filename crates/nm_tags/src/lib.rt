//! The model: what operations make of a message's tags, how a tag is written in a line of text, and lines of tag
//! changes.
#![tactic(auto)]

mod apply;
mod batch;
mod decode;
mod encode;
mod laws;
mod line_error;
mod tag_line;
mod wanted;
mod words;

pub use apply::apply_ops;
pub use batch::{batch_lines, changes_of, classified};
pub use decode::{decode_tag, text_of};
pub use encode::encode_tag;
pub use laws::{
    a_tag_that_no_operation_names_stays, a_written_tag_is_read_back, tags_stay_in_order,
    the_last_operation_on_a_tag_decides,
};
pub use line_error::{LineError, LineKind};
pub use nm_base::TagOp;
pub use tag_line::TagLine;
pub use wanted::Wanted;
pub use words::{begins_with_space, next_word, without_space};
