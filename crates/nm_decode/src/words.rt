//! Encoded words in a header's text: `nm_extract` decodes subjects and names with it, `nm_mime` names of files.

ghost use Rattle.std.specs.Prelude.{◌≡◌, ◌+◌, ◌++◌, IfOk, IfSome, OnOk, string_bytes};
ghost use Rattle.nm_decode.specs.WordSteps.{IsSpan, gap_text};
ghost use Rattle.nm_decode.specs.EncodedWords.{first_word, words_decoded, word_of};

use crate::decodes::word_text;
use crate::fields::fields;
use nm_base::{NoMemory, Text};
use nm_text::is_all_white_space;
use std::alloc::Global;

/// An encoded word that decodes: its length in bytes, and its text.
#[derive(Drop)]
pub struct EncodedWord {
    pub len: usize,
    pub text: Text,
}

/// The first such word of a text, and the byte at which it begins.
#[derive(Drop)]
pub struct FoundWord {
    pub at: usize,
    pub word: EncodedWord,
}

/// The text with its encoded words decoded (RFC 2047, sections 2 and 6.2), wherever they are. White space between two
/// of them goes; a word that doesn't decode stays as written.
pub fn encoded_words(alloc: Global, text: &str) -> Result<Text, NoMemory>
    ensures { IfOk result (λ shown. shown ≡ words_decoded text.now) }
{
    let mut out = String::with_capacity(alloc, text.len())?;
    let mut rest = text;
    let mut follows = false;
    'words: while let Some(found) = first_word(alloc, rest.as_bytes())? {
        let end = found.at + found.word.len;
        push_gap(&mut out, follows, &rest[..found.at])?;
        out.push_str(found.word.text.as_str())?;
        rest = &rest[end..];
        follows = true;
    }
    out.push_str(rest)?;
    Ok(Text::from_string(out)?)
}

fn push_gap(out: &mut String, follows: bool, gap: &str) -> Result<(), NoMemory>
    ensures { OnOk result (string_bytes out.new ≡ string_bytes out.old ++ gap_text follows gap.now) }
{
    if follows && is_all_white_space(gap.as_bytes()) {
        return Ok(());
    }
    out.push_str(gap)?;
    Ok(())
}

fn first_word(alloc: Global, text: &[u8]) -> Result<Option<FoundWord>, NoMemory>
    ensures value { IfOk result (λ found. found ≡ first_word text.now) }
    ensures place { IfOk result (λ found. IfSome found (λ f. IsSpan text.now f.at (f.at + f.word.len))) }
{
    let mut at = 0;
    'places: while at < text.len() {
        let (_, rest) = text.split_at(at);
        if let Some(word) = word_at(alloc, rest)? {
            return Ok(Some(FoundWord { at, word }));
        }
        at += 1;
    }
    Ok(None)
}

fn word_at(alloc: Global, text: &[u8]) -> Result<Option<EncodedWord>, NoMemory>
    ensures value { IfOk result (λ word. word ≡ word_of text.now) }
    ensures place { IfOk result (λ word. IfSome word (λ w. IsSpan text.now 0 w.len)) }
{
    let Some((charset, encoding, encoded)) = fields(text) else {
        return Ok(None);
    };
    let len = charset.len() + encoding.len() + encoded.len() + 6;
    let Some(shown) = word_text(alloc, charset, encoding, encoded)? else {
        return Ok(None);
    };
    Ok(Some(EncodedWord { len, text: shown }))
}
