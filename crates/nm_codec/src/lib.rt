//! Values: numbers, texts and lists as bytes, and how they are read again. Numbers are big-endian; a text is its length in
//! four bytes and then its bytes, a list its count in four bytes and then its items.
#![tactic(auto)]

mod format;
mod list;
mod pair;
mod read_error;
mod reader;
mod rising_list;
mod text;
mod words;
mod words_len;
mod writer;

pub use format::Format;
pub use list::ListOf;
pub use pair::Pair;
pub use read_error::{Bad, ReadError};
pub use reader::Reader;
pub use rising_list::RisingOf;
pub use text::{TextFormat, text_len};
pub use words::WordsFormat;
pub use writer::Writer;
