//! Values: the rules about bytes and texts that the readers share: white space, lines, cuts, quoted strings, case. Each
//! rule is here once. A contract sees bytes and texts as lists of bytes. Searches, damaged UTF-8 and ASCII case are the
//! library `bstr`'s; DECISIONS says why the rest is our own.
#![tactic(auto)]

mod case;
mod cuts;
mod laws;
mod lines;
mod quoted_strings;
mod utf8;
mod white_space;

pub use case::{lowercase, same_ignoring_case};
pub use cuts::{after_first, before_first, begins_with, cut_at, ends_with, first_place};
pub use laws::{nothing_is_cut_away, the_first_line_ends_at_the_first_line_feed};
pub use lines::{content, line_len, next_content, next_line};
pub use quoted_strings::{is_special, pair_len, quoted_len, unquoted};
pub use utf8::{as_text, lossy_text, text_of};
pub use white_space::{
    is_all_white_space, is_blank, is_printable, is_white_space, trimmed, trimmed_end,
    trimmed_start, without_white_space,
};
