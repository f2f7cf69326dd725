//! Values: what every crate speaks of: texts, lists, names, tags, paths and the facts of a mail.
//! A contract sees a text as its bytes, a list as its items, and a struct as a record of these.
#![tactic(auto)]

mod across;
mod asks;
mod boxed;
mod copies;
mod dates;
mod facts;
mod forms;
mod lent_words;
mod limit;
mod mail_path;
mod many;
mod memory;
mod message_id;
mod names;
mod refusals;
mod room;
mod shared_bytes;
mod short_text;
mod steps;
mod tag;
mod tag_op;
mod tags;
mod text;
mod text_set;
mod word;
mod word_list;

pub use across::text_may_cross;
pub use asks::{CountAsk, DumpAsk, RestoreAsk, SearchAsk, ShowAsk, TagAsk};
pub use boxed::Boxed;
pub use copies::Copies;
pub use dates::is_date;
pub use facts::{Facts, Field, FieldWords, LinkRow, Mailbox, Marks};
pub use forms::{DumpForm, Output, ReadForm};
pub use lent_words::split_length;
pub use limit::Limit;
pub use mail_path::MailPath;
pub use many::Many;
pub use memory::{Failed, NoMemory};
pub use message_id::MessageId;
pub use names::BadValue;
pub use refusals::{Skip, UsageKind};
pub use room::Room;
pub use shared_bytes::SharedBytes;
pub use steps::Steps;
pub use tag::Tag;
pub use tag_op::TagOp;
pub use tags::Tags;
pub use text::Text;
pub use text_set::TextSet;
pub use word::is_word;
pub use word_list::{WordList, Words};
