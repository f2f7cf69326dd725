//! Reading one mail: its facts, who wrote it and to whom, when, about what, and which words it has. Any bytes are known
//! exactly: their facts, or that they are no mail.
#![tactic(auto)]

mod body_text;
mod dates;
mod html;
mod ids;
mod laws;
mod mail;
mod mailboxes;
mod part_facts;
mod word_lists;

pub use laws::{
    a_mail_links_to_others_once, links_stand_in_order_of_first_naming, no_tag_is_read,
    text_outside_tags_stays,
};
pub use mail::{ExtractError, bodies, extract};
