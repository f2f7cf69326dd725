//! Reading one mail: bodies and header text as Unicode; quoted-printable, base64, charsets and encoded words.
//! Damage never stops it; running out of memory is the only refusal.
#![tactic(auto)]

mod charset;
mod decodes;
mod fields;
mod groups;
mod laws;
mod quoted;
mod words;

pub use charset::charset_text;
pub use groups::base64_bytes;
pub use quoted::quoted_printable;
pub use words::encoded_words;
