//! Texts, whose length comes before them: `nm_record` writes names and facts so.

ghost use Rattle.std.specs.Prelude.{◌≡◌, true, length, min};
ghost use Rattle.std.specs.Str.{is_utf8};
ghost use Rattle.nm_base.specs.Limits.{max_count};
ghost use Rattle.nm_codec.specs.Grammar.{text_grammar};
ghost use Rattle.nm_codec.specs.Encoding.{text_bytes};

use crate::{Format, ReadError, Reader, Writer};
use nm_base::{NoMemory, Text};
use std::alloc::Global;

/// A text: its length in four bytes, and its bytes, which are UTF-8.
pub struct TextFormat;

impl Format for TextFormat {
    type Value = Text;

    ghost grammar = { text_grammar };

    ghost asked = { λ text. true };

    fn read(alloc: Global, reader: &mut Reader<'_>) -> Result<Text, ReadError> {
        reader.text(alloc)
    }

    fn len(value: &Text) -> u64 {
        text_len(value)
    }

    fn write(value: &Text, writer: &mut Writer) -> Result<(), NoMemory> {
        writer.put_text(value)
    }
}

/// How many bytes a text has after its length, up to 2^64 - 1.
#[tactic(auto, using(crate::proofs::Utf8Lemmas::utf8))]
pub fn text_len(text: &Text) -> u64
    ensures len { result ≡ min (length (text_bytes text.now)) max_count }
    ensures utf8 { is_utf8 text.now ≡ true }
{
    let len = text.as_str().len() as u64;
    len.saturating_add(4)
}
