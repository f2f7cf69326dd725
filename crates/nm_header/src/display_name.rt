//! The name of a mailbox, without quotes and spare white space, for `mailboxes`.

ghost use Rattle.std.specs.Prelude.{◌≡◌, [], ◌∷◌, ◌++◌, IfOk, OnOk, position, string_bytes};
ghost use Rattle.nm_base.specs.Bounds.{is_white_space};
ghost use Rattle.nm_header.specs.Mailboxes.{added_word, spaced_of};
ghost use Rattle.nm_text.specs.QuotedStrings.{unquoted, unquoted_pair};

use nm_base::{NoMemory, Text};
use nm_text::{is_white_space, text_of, unquoted};
use std::alloc::Global;

/// The name of a mailbox as it is shown: no quotes, and one space for each run of white space.
pub(crate) fn display_name(alloc: Global, text: &str) -> Result<Text, NoMemory>
    ensures { IfOk result (λ name. name ≡ spaced_of (unquoted text.now)) }
{
    let said = text_of(unquoted(alloc, text.as_bytes())?)?;
    spaced(alloc, said.as_str())
}

fn spaced(alloc: Global, text: &str) -> Result<Text, NoMemory>
    ensures { IfOk result (λ spaced. spaced ≡ spaced_of text.now) }
{
    let mut spaced = String::new(alloc);
    let mut left = text;
    'words: while let Some(at) = space_at(left) {
        add_word(&left[..at], &mut spaced)?;
        left = &left[at + 1..];
    }
    add_word(left, &mut spaced)?;
    Ok(Text::from_string(spaced)?)
}

fn add_word(word: &str, spaced: &mut String) -> Result<(), NoMemory>
    ensures { OnOk result (string_bytes spaced.new ≡ added_word (string_bytes spaced.old) word.now) }
{
    if word.is_empty() {
        return Ok(());
    }
    if spaced.is_empty() {
        spaced.push_str(word)?;
        return Ok(());
    }
    spaced.push(' ')?;
    spaced.push_str(word)?;
    Ok(())
}

fn space_at(text: &str) -> Option<usize>
    ensures { result ≡ position is_white_space text.now }
{
    text.as_bytes().iter().position(|b| is_white_space(*b))
}
