//! The line that begins a field, and the name in it, for `fields`.

ghost use Rattle.std.specs.Prelude.{◌≡◌, IfOk, map, true};
ghost use Rattle.std.specs.Char.{to_ascii_lowercase};
ghost use Rattle.std.specs.List.{after_first, list_all, list_any};
ghost use Rattle.nm_header.specs.Fields.{begins_field, continues, is_from_line, is_name, name_of};
ghost use Rattle.nm_text.specs.Cuts.{is_byte};
ghost use Rattle.nm_text.specs.Lines.{content};
ghost use Rattle.nm_text.specs.WhiteSpace.{is_printable};

use nm_base::{NoMemory, Text};
use nm_text::{
    after_first, before_first, content, is_blank, is_printable, lowercase, text_of, trimmed_end,
};
use std::alloc::Global;

/// Whether the line goes on with the field before it.
pub(crate) fn continues(line: &[u8]) -> bool
    ensures { result ≡ continues line.now }
{
    match line {
        [] => false,
        [first, ..] => is_blank(*first),
    }
}

/// Whether the line is the first one of a mail in an mbox.
pub(crate) fn is_from_line(line: &[u8]) -> bool
    ensures { result ≡ is_from_line line.now }
{
    line.starts_with(b"From ")
}

pub(crate) fn begins_field(line: &[u8]) -> bool
    ensures { result ≡ begins_field line.now }
{
    if continues(line) {
        return false;
    }
    if !has_colon(content(line)) {
        return false;
    }
    is_name(name_in(line))
}

fn has_colon(text: &[u8]) -> bool
    ensures { result ≡ list_any (is_byte 58) text.now }
{
    text.contains(&b':')
}

/// The name of a field in lower case.
pub(crate) fn name_text(alloc: Global, line: &[u8]) -> Result<Text, NoMemory>
    requires { begins_field line.now ≡ true }
    ensures { IfOk result (λ name. name ≡ map to_ascii_lowercase (name_of line.now)) }
{
    let lower = lowercase(alloc, name_in(line))?;
    let name = text_of(lower)?;
    Ok(name)
}

fn name_in(line: &[u8]) -> &[u8]
    ensures { result.now ≡ name_of line.now }
{
    trimmed_end(before_first(content(line), b':'))
}

/// What comes after the colon, or nothing.
pub(crate) fn after_colon(line: &[u8]) -> &[u8]
    ensures { result.now ≡ after_first (is_byte 58) (content line.now) }
{
    after_first(content(line), b':')
}

fn is_name(name: &[u8]) -> bool
    ensures { result ≡ is_name name.now }
{
    if name.is_empty() {
        return false;
    }
    has_name_bytes(name)
}

fn has_name_bytes(name: &[u8]) -> bool
    ensures { result ≡ list_all is_printable name.now }
{
    name.iter().all(|b| is_printable(*b))
}
