//! The mailboxes in a field's text; `nm_extract` reads From, To, Cc and Bcc with it.

ghost use Rattle.std.specs.Prelude.{◌≡◌, ◌++◌, ◌<◌, ◌≤◌, drop, length, IfOk, OnOk};
ghost use Rattle.std.specs.List.{before_first, list_all};
ghost use Rattle.std.specs.Str.{IsCharBoundary};
ghost use Rattle.nm_base.specs.Bounds.{is_white_space};
ghost use Rattle.nm_header.specs.Mailboxes.{StopsAt, is_angle, lexemes_before, mailbox_in, mailbox_lexemes_of, mailbox_of, mailboxes_in, mailboxes_of, part_ends};
ghost use Rattle.nm_text.specs.Cuts.{is_byte};

use crate::display_name::display_name;
use crate::mailbox_lexemes::{begins_with_any, stop_len};
use crate::plain;
use nm_base::{Mailbox, Many, NoMemory, Text};
use nm_text::{cut_at, is_all_white_space, without_white_space};
use std::alloc::Global;

/// The mailboxes in a field's text, in their order (RFC 5322, section 3.4). Comments are dropped, and so is what comes
/// before a `:`. Encoded words in the names stay as they are.
pub fn mailboxes(alloc: Global, text: &str) -> Result<Many<Mailbox>, NoMemory>
    ensures { IfOk result (λ found. found ≡ mailboxes_of text.now) }
{
    let plain = plain(alloc, text)?;
    let mut found = Many::new(alloc);
    let mut left = plain.as_str();
    'parts: while !left.is_empty() {
        let size = add_part(alloc, left, &mut found)?;
        left = &left[size..];
    }
    Ok(found)
}

/// Adds the mailbox of the first part. Answers how many bytes the part has, with the special that ends it.
fn add_part(alloc: Global, text: &str, found: &mut Many<Mailbox>) -> Result<usize, NoMemory>
    requires { 0 < length text.now }
    ensures found { IfOk result (λ size. found.new ++ mailboxes_in (mailbox_lexemes_of (drop size text.now)) ≡ found.old ++ mailboxes_in (mailbox_lexemes_of text.now)) }
    ensures some { IfOk result (λ size. 0 < size) }
    ensures within { IfOk result (λ size. size ≤ length text.now) }
    ensures boundary { IfOk result (λ size. IsCharBoundary text.now size) }
{
    let size = stop_len(text.as_bytes(), b",;:");
    if size == text.len() {
        add_mailbox(alloc, text, size, found)?;
        return Ok(size);
    }
    if text.as_bytes()[size] == b':' {
        return Ok(size + 1);
    }
    add_mailbox(alloc, text, size, found)?;
    Ok(size + 1)
}

fn add_mailbox(
    alloc: Global,
    text: &str,
    size: usize,
    found: &mut Many<Mailbox>,
) -> Result<(), NoMemory>
    requires { StopsAt part_ends text.now size }
    ensures { OnOk result (found.new ≡ found.old ++ mailbox_in (lexemes_before part_ends text.now)) }
{
    let (part, _) = text.as_bytes().split_at(size);
    if is_all_white_space(part) {
        return Ok(());
    }
    let mailbox = mailbox(alloc, text, size)?;
    found.push(mailbox)
}

fn mailbox(alloc: Global, text: &str, size: usize) -> Result<Mailbox, NoMemory>
    requires { StopsAt part_ends text.now size }
    ensures { IfOk result (λ mailbox. mailbox ≡ mailbox_of (lexemes_before part_ends text.now)) }
{
    let name_size = stop_len(text.as_bytes(), b",;:<");
    if !is_angle(text.as_bytes(), name_size) {
        let address = without_white_space(alloc, &text[..size])?;
        let name = Text::new(alloc);
        return Ok(Mailbox { name, address });
    }
    let name = display_name(alloc, &text[..name_size])?;
    let address = without_white_space(alloc, enclosed(&text[name_size + 1..]))?;
    Ok(Mailbox { name, address })
}

fn is_angle(text: &[u8], at: usize) -> bool
    requires { at ≤ length text.now }
    ensures { result ≡ is_angle (drop at text.now) }
{
    let (_, after) = text.split_at(at);
    begins_with_any(after, b"<")
}

/// What comes before the next `>`, or all.
fn enclosed(text: &str) -> &str
    ensures { result.now ≡ before_first (is_byte 62) text.now }
{
    match cut_at(text, b'>') {
        Some((front, _)) => front,
        None => text,
    }
}
