//! The words of a text; `nm_extract` calls it for each text of a mail.

ghost use Rattle.std.specs.Prelude.{◌≡◌, ◌<◌, ◌^◌, ◌++◌, IfOk, IfSome, OnOk, position};
ghost use Rattle.nm_words.specs.Words.{is_line_feed, words_of};

use crate::pieces::add_pieces;
use nm_base::{NoMemory, WordList};
use std::alloc::Global;
use unicode_segmentation::UnicodeSegmentation;

/// The words of the text in their order (UAX 29), each cut at every ASCII character that is no
/// letter, no digit and no `_`, and folded. Those that come out empty or longer than 200 bytes
/// are left out.
pub fn words(alloc: Global, text: &str) -> Result<WordList, NoMemory>
    ensures { IfOk result (λ found. found ≡ words_of text.now) }
{
    let mut found = WordList::new(alloc);
    add_words(alloc, text, &mut found)?;
    found.shrink_to_fit();
    Ok(found)
}

/// Adds the words of the text to those that were found before.
pub fn add_words(alloc: Global, text: &str, found: &mut WordList) -> Result<(), NoMemory>
    ensures { OnOk result (found.new ≡ found.old ++ words_of text.now) }
{
    // Each piece is folded in here, so that only a word that is kept takes memory of its own.
    let mut room = String::new(alloc);
    let mut left = text;
    // No word goes on after a line feed.
    'lines: while let Some(at) = line_feed_at(left) {
        add_line(&left[..at + 1], &mut room, found)?;
        left = &left[at + 1..];
    }
    add_line(left, &mut room, found)
}

#[tactic(auto, using(crate::proofs::AsciiLemmas::ascii_words))]
fn add_line(line: &str, room: &mut String, found: &mut WordList) -> Result<(), NoMemory>
    ensures { OnOk result (found.new ≡ found.old ++ words_of line.now) }
{
    // Most lines are ASCII, where what is between two signs is a word if it has a letter or a digit.
    if line.is_ascii() {
        return add_pieces(line, true, room, found);
    }
    'words: for word in line.unicode_words() {
        add_pieces(word, false, room, found)?;
    }
    Ok(())
}

/// Where the first line feed of the text is.
fn line_feed_at(text: &str) -> Option<usize>
    ensures found { result ≡ position is_line_feed text.now }
    ensures below { IfSome result (λ at. at < 2 ^ 63) }
{
    text.as_bytes().iter().position(|b| *b == b'\n')
}
