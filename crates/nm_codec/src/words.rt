//! The words of a text in bytes, read into one block and written from it, for the facts of a mail in `nm_record`.

ghost use Rattle.std.specs.Prelude.{◌≡◌, ◌++◌, ◌<◌, ◌≤◌, ◌-◌, ◌^◌, IsTrue, MatchResult, OnOk, length, true};
ghost use Rattle.std.specs.List.{flat_map};
ghost use Rattle.nm_base.specs.Word.{is_word};
ghost use Rattle.nm_codec.specs.Grammar.{word_grammar, words_grammar};
ghost use Rattle.nm_codec.specs.ReadSteps.{GivesUnlessNoMemory, items_at};
ghost use Rattle.nm_codec.specs.Encoding.{text_bytes};

use crate::{Bad, Format, ReadError, Reader, Writer};
use nm_base::{NoMemory, WordList, Words, is_word};
use std::alloc::Global;

/// The words of a text: their count in four bytes, and each word as a text.
pub struct WordsFormat;

impl Format for WordsFormat {
    type Value = WordList;

    ghost grammar = { words_grammar };

    ghost asked = { λ words. true };

    #[tactic(auto, unfolding(crate::specs::ReadSteps::list_at))]
    fn read(alloc: Global, reader: &mut Reader<'_>) -> Result<WordList, ReadError> {
        let count = reader.u32()?;
        match reader.lent_words(alloc, count)? {
            Some(words) => Ok(words),
            None => read_words(alloc, count, reader),
        }
    }

    fn len(value: &WordList) -> u64 {
        let lengths = (value.len() as u64).saturating_mul(3);
        (value.bytes_len() as u64)
            .saturating_add(lengths)
            .saturating_add(4)
    }

    fn write(value: &WordList, writer: &mut Writer) -> Result<(), NoMemory> {
        writer.put_u32(value.len() as u32)?;
        write_words(&mut value.words(), writer)
    }
}

/// N words, one after the other.
fn read_words(alloc: Global, count: u32, reader: &mut Reader<'_>) -> Result<WordList, ReadError>
    ensures { GivesUnlessNoMemory reader.old result reader.new (items_at word_grammar.read count reader.old.rest) }
{
    let mut words = WordList::new(alloc);
    'words: for _ in 0..count {
        match read_word(reader) {
            Ok(word) => words.push(word)?,
            Err(bad) => return Err(ReadError::Bad { at: bad.at }),
        }
    }
    words.shrink_to_fit();
    Ok(words)
}

#[tactic(auto, unfolding(crate::specs::ReadSteps::tested_at))]
fn read_word<'a>(reader: &mut Reader<'a>) -> Result<&'a str, Bad>
    ensures { MatchResult result
        (λ word. (word_grammar.read reader.old.rest ≡ Ok (word.now, reader.new.rest)) × (reader.new.len ≡ reader.old.len) × IsTrue (is_word word.now))
        (λ bad. (bad.at ≤ reader.old.len) × (word_grammar.read reader.old.rest ≡ Err (reader.old.len - bad.at))) }
{
    let at = reader.at();
    let word = match reader.str() {
        Ok(word) => word,
        Err(bad) => return Err(bad),
    };
    if !is_word(word) {
        return Err(Bad { at });
    }
    Ok(word)
}

fn write_words(words: &mut Words<'_>, writer: &mut Writer) -> Result<(), NoMemory>
    requires { length (flat_map text_bytes words.old) < 2 ^ 32 }
    ensures { OnOk result (writer.new ≡ writer.old ++ flat_map text_bytes words.old) }
{
    'words: while let Some(word) = words.take_first() {
        writer.put_text_bytes(word)?;
    }
    Ok(())
}
