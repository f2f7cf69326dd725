//! The texts of the fields of one name; `nm_mime` and `nm_extract` ask a header so.

ghost use Rattle.std.specs.Prelude.{◌≡◌, IfOk, map, filter, find};
ghost use Rattle.std.specs.Option.{option_copied, option_map, option_to_list};
ghost use Rattle.std.specs.Str.Lossy.{utf8_lossy};
ghost use Rattle.nm_header.specs.Texts.{counts_all, field_text, has_field, is_named, text_in, texts_of};

use crate::{HeaderField, HeaderList};
use nm_base::{Many, NoMemory, Text};
use nm_text::lossy_text;
use std::alloc::Global;

impl HeaderField {
    /// The body read as UTF-8, with U+FFFD for damage.
    pub fn text(&self, alloc: Global) -> Result<Text, NoMemory>
        ensures { IfOk result (λ text. text ≡ utf8_lossy self.now.body) }
    {
        lossy_text(alloc, self.body.as_slice())
    }

    fn is_named(&self, name: &str) -> bool
        ensures { result ≡ is_named name.now self.now }
    {
        self.name.as_str() == name
    }
}

impl HeaderList {
    /// The texts of the fields with this name, which is in lower case: of `to`, `cc`, `bcc`, `references`
    /// and `in-reply-to` all in their order, of every other name the first.
    pub fn texts(&self, alloc: Global, name: &str) -> Result<Many<Text>, NoMemory>
        ensures { IfOk result (λ texts. texts ≡ texts_of self.now.list name.now) }
    {
        if counts_all(name) {
            all_texts(alloc, self.list.as_slice(), name)
        } else {
            lone_text(alloc, self.list.as_slice(), name)
        }
    }

    /// The text of the first field with this name, or the empty text.
    #[tactic(auto, using(crate::proofs::TextLemmas::first_some, crate::proofs::TextLemmas::first_none))]
    pub fn first_text(&self, alloc: Global, name: &str) -> Result<Text, NoMemory>
        ensures { IfOk result (λ text. text ≡ field_text self.now.list name.now) }
    {
        match first_named(self.list.as_slice(), name) {
            None => Ok(Text::new(alloc)),
            Some(field) => field.text(alloc),
        }
    }

    /// Whether a field with this name is in the header.
    pub fn has(&self, name: &str) -> bool
        ensures { result ≡ has_field self.now.list name.now }
    {
        self.list
            .as_slice()
            .iter()
            .any(|field| field.is_named(name))
    }
}

fn counts_all(name: &str) -> bool
    ensures { result ≡ counts_all name.now }
{
    if name == "to" {
        return true;
    }
    if name == "cc" {
        return true;
    }
    if name == "bcc" {
        return true;
    }
    if name == "references" {
        return true;
    }
    name == "in-reply-to"
}

fn all_texts(alloc: Global, fields: &[HeaderField], name: &str) -> Result<Many<Text>, NoMemory>
    ensures { IfOk result (λ texts. texts ≡ map text_in (filter (is_named name.now) fields.now)) }
{
    let mut texts = Many::new(alloc);
    'fields: for field in fields {
        if field.is_named(name) {
            texts.push(field.text(alloc)?)?;
        }
    }
    Ok(texts)
}

/// The text of the first field with this name, if there is one.
fn lone_text(alloc: Global, fields: &[HeaderField], name: &str) -> Result<Many<Text>, NoMemory>
    ensures { IfOk result (λ texts. texts ≡ option_to_list (option_map text_in (find (is_named name.now) fields.now))) }
{
    let mut texts = Many::new(alloc);
    match first_named(fields, name) {
        None => Ok(texts),
        Some(field) => {
            texts.push(field.text(alloc)?)?;
            Ok(texts)
        }
    }
}

fn first_named<'a>(fields: &'a [HeaderField], name: &str) -> Option<&'a HeaderField>
    ensures { option_copied result ≡ find (is_named name.now) fields.now }
{
    'fields: for field in fields {
        if field.is_named(name) {
            return Some(field);
        }
    }
    None
}
