//! Reading one mail: the words of a text, as an index keeps them: those of UAX 29, cut at ASCII signs, without case.
#![tactic(auto)]

mod pieces;
mod text;

pub use text::{add_words, words};
