//! Reading one mail: its header, and the ids, mailboxes and plain text in a field (RFC 5322).
//! Any bytes and any text are read; what has no meaning is skipped.
#![tactic(auto)]

mod comments;
mod display_name;
mod field_line;
mod header;
mod header_lines;
mod id_list;
mod laws;
mod mailbox_lexemes;
mod mailbox_list;
mod plain_text;
mod texts;

pub use header::{HeaderField, HeaderList, fields};
pub use id_list::ids;
pub use laws::{
    a_body_has_no_line_feed, a_folded_body_is_read_whole, a_group_is_its_mailboxes,
    a_mail_is_its_header_and_its_body, an_address_alone_is_a_mailbox, mailboxes_end_at_separators,
    nothing_is_lost, written_ids_are_read, written_mailboxes_are_read,
};
pub use mailbox_list::mailboxes;
pub use plain_text::plain;
