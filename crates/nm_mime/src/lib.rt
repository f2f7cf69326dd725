//! Reading one mail: its parts (RFC 2045, RFC 2046); a tree of any form is read without recursion.
//! Damage never stops it; out of memory is the only refusal.
#![tactic(auto)]

mod children;
mod entity;
mod laws;
mod open_parts;
mod param_list;
mod part_header;
mod part_reader;
mod roles;
mod tree;
mod types;

pub use entity::Part;
pub use laws::{
    a_part_stands_before_those_in_it, elder_siblings_come_first, parts_in_a_part_stand_apart,
    parts_stand_between_delimiters, unquoted_params_are_read, written_params_are_read,
    written_parts_are_read,
};
pub use param_list::Param;
pub use part_reader::PartReader;
pub use roles::{Encoding, Role};
pub use tree::parts;
pub use types::{ContentType, content_type};
