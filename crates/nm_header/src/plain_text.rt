//! A text without its comments, for mailboxes in `mailbox_list` and for dates in `nm_extract`.

ghost use Rattle.std.specs.Prelude.{◌≡◌, ◌++◌, IfOk, OnOk};
ghost use Rattle.nm_header.specs.Comments.{plain_of, shown};

use crate::comments::lexeme_len;
use nm_base::{NoMemory, Text};
use nm_text::{begins_with, text_of};
use std::alloc::Global;

/// The text with each comment replaced by one space (RFC 5322, section 3.2.2). Comments nest, a `\`
/// takes the next character with it, and inside double quotes there is no comment. One that is
/// not closed runs to the end.
pub fn plain(alloc: Global, text: &str) -> Result<Text, NoMemory>
    ensures { IfOk result (λ plain. plain ≡ plain_of text.now) }
{
    let mut shown = Vec::with_capacity(alloc, text.len())?;
    let mut left = text.as_bytes();
    'lexemes: while !left.is_empty() {
        let (lexeme, after) = left.split_at(lexeme_len(left));
        show(lexeme, &mut shown)?;
        left = after;
    }
    let plain = text_of(shown)?;
    Ok(plain)
}

fn show(lexeme: &[u8], text: &mut Vec<u8>) -> Result<(), NoMemory>
    ensures { OnOk result (text.new.items ≡ text.old.items ++ shown lexeme.now) }
{
    if begins_with(b'(', lexeme) {
        text.push(b' ')?;
    } else {
        text.extend_from_slice(lexeme)?;
    }
    Ok(())
}
