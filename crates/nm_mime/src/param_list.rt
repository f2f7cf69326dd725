//! The parameters of a header field, for content types in `types` and dispositions in `roles`.

ghost use Rattle.std.specs.Prelude.{◌≡◌, ◌++◌, ◌<◌, ◌≤◌, IfOk, IsUtf8, OnOk, drop, find, length, map, position, string_bytes};
ghost use Rattle.std.specs.Char.{to_ascii_lowercase};
ghost use Rattle.std.specs.List.{before_first, list_any, position_or_len};
ghost use Rattle.std.specs.Option.{option_copied, option_map};
ghost use Rattle.nm_text.specs.Cuts.{begins_with, is_byte};
ghost use Rattle.nm_text.specs.WhiteSpace.{trimmed};
ghost use Rattle.nm_mime.specs.Params.{after_name, after_param, after_quoted, after_value, ends_name, ends_value, is_param, kept_param, param_from, param_in, param_of, params_in, params_of, quoted_text, value_in, value_of};

use nm_base::{Copies, Many, NoMemory, Text};
use nm_text::{
    after_first, begins_with, is_white_space, lowercase, quoted_len, text_of, trimmed,
    trimmed_start, unquoted,
};
use std::alloc::Global;

/// A parameter of a header field.
#[derive(Drop)]
pub struct Param {
    /// In lower case.
    pub name: Text,
    /// Without quotes.
    pub value: Text,
}

/// The parameters in a field's text, in their order.
pub(crate) fn params(alloc: Global, text: &[u8]) -> Result<Many<Param>, NoMemory>
    requires { IsUtf8 text.now }
    ensures { IfOk result (λ params. params ≡ params_of text.now) }
{
    let mut found = Many::new(alloc);
    let mut left = after_first(text, b';');
    'params: while !left.is_empty() {
        left = add_param(alloc, left, &mut found)?;
    }
    Ok(found)
}

/// Adds the first parameter, if there is one, and answers what comes after it.
#[tactic(auto, using(crate::proofs::ParamLemmas::after_less, crate::proofs::ParamLemmas::drop_less))]
fn add_param<'a>(
    alloc: Global,
    text: &'a [u8],
    found: &mut Many<Param>,
) -> Result<&'a [u8], NoMemory>
    requires some { 0 < length text.now }
    requires utf8 { IsUtf8 text.now }
    ensures found { OnOk result (found.new ≡ found.old ++ param_in text.now) }
    ensures left { IfOk result (λ left. left.now ≡ after_param text.now) }
    ensures less { IfOk result (λ left. length left.now < length text.now) }
{
    let (name, after) = text.split_at(name_len(text));
    add_named(alloc, name, after, found)?;
    Ok(after_first(after_name(after), b';'))
}

/// Adds the parameter of the name after which this comes.
fn add_named(
    alloc: Global,
    name: &[u8],
    after: &[u8],
    found: &mut Many<Param>,
) -> Result<(), NoMemory>
    requires name { IsUtf8 name.now }
    requires after { IsUtf8 after.now }
    ensures { OnOk result (found.new ≡ found.old ++ param_from name.now after.now) }
{
    if !begins_with(b'=', after) {
        return Ok(());
    }
    if has_star(name) {
        return Ok(());
    }
    let param = named_value(alloc, name, trimmed_start(&after[1..]))?;
    found.push(param)
}

fn named_value(alloc: Global, name: &[u8], text: &[u8]) -> Result<Param, NoMemory>
    requires name { IsUtf8 name.now }
    requires text { IsUtf8 text.now }
    ensures { IfOk result (λ param. param ≡ record { name = map to_ascii_lowercase (trimmed name.now); value = value_in text.now }) }
{
    let name = lowercase(alloc, trimmed(name))?;
    let value = value_bytes(alloc, text)?;
    Ok(Param {
        name: text_of(name)?,
        value: text_of(value)?,
    })
}

fn value_bytes(alloc: Global, text: &[u8]) -> Result<Vec<u8>, NoMemory>
    ensures value { IfOk result (λ value. value.items ≡ value_in text.now) }
    ensures text { IfOk result (λ value. IsUtf8 text.now → IsUtf8 value.items) }
{
    if begins_with(b'"', text) {
        let said = quoted_text(alloc, &text[1..])?;
        return Ok(said);
    }
    let value = Vec::from_slice(alloc, run(text))?;
    Ok(value)
}

/// What a quoted string says after its `"`.
fn quoted_text(alloc: Global, text: &[u8]) -> Result<Vec<u8>, NoMemory>
    ensures value { IfOk result (λ said. said.items ≡ quoted_text text.now) }
    ensures text { IfOk result (λ said. IsUtf8 text.now → IsUtf8 said.items) }
{
    let (quoted, _) = text.split_at(quoted_len(text));
    let said = unquoted(alloc, quoted)?;
    Ok(said)
}

fn run(text: &[u8]) -> &[u8]
    ensures { result.now ≡ before_first ends_value text.now }
{
    match value_end(text) {
        Some(at) => &text[..at],
        None => text,
    }
}

fn value_end(text: &[u8]) -> Option<usize>
    ensures { result ≡ position ends_value text.now }
{
    text.iter().position(|b| *b == b';' || is_white_space(*b))
}

/// What comes after the quoted value of a name, or all.
fn after_name(after: &[u8]) -> &[u8]
    ensures value { result.now ≡ after_name after.now }
    ensures within { length result.now ≤ length after.now }
{
    if !begins_with(b'=', after) {
        return after;
    }
    let value = trimmed_start(&after[1..]);
    if begins_with(b'"', value) {
        return after_quoted(&value[1..]);
    }
    value
}

/// What comes after the quoted string, its `"` with it.
fn after_quoted(text: &[u8]) -> &[u8]
    ensures value { result.now ≡ after_quoted text.now }
    ensures within { length result.now ≤ length text.now }
{
    let (_, after) = text.split_at(quoted_len(text));
    after
}

fn has_star(name: &[u8]) -> bool
    ensures { result ≡ list_any (is_byte 42) name.now }
{
    name.contains(&b'*')
}

/// How many bytes come before the first `=` or `;`.
#[tactic(auto, using(crate::proofs::ParamLemmas::place_some, crate::proofs::ParamLemmas::place_none))]
fn name_len(text: &[u8]) -> usize
    ensures value { result ≡ position_or_len ends_name text.now }
    ensures within { result ≤ length text.now }
{
    match name_end(text) {
        Some(at) => at,
        None => text.len(),
    }
}

fn name_end(text: &[u8]) -> Option<usize>
    ensures { result ≡ position ends_name text.now }
{
    text.iter().position(|b| *b == b'=' || *b == b';')
}

/// The value of the first parameter with this name, which is in lower case.
pub(crate) fn param_text(
    alloc: Global,
    params: &[Param],
    name: &str,
) -> Result<Option<Text>, NoMemory>
    ensures { IfOk result (λ text. text ≡ param_of params.now name.now) }
{
    match first_named(params, name) {
        None => Ok(None),
        Some(param) => {
            let value = param.value.copy()?;
            Ok(Some(value))
        }
    }
}

/// That value, or the empty text.
pub(crate) fn value_text(alloc: Global, params: &[Param], name: &str) -> Result<Text, NoMemory>
    ensures { IfOk result (λ text. text ≡ value_of params.now name.now) }
{
    match first_named(params, name) {
        None => Ok(Text::new(alloc)),
        Some(param) => param.value.copy(),
    }
}

fn first_named<'a>(params: &'a [Param], name: &str) -> Option<&'a Param>
    ensures { option_copied result ≡ find (is_param name.now) params.now }
{
    'params: for param in params {
        if is_named(param, name) {
            return Some(param);
        }
    }
    None
}

fn is_named(param: &Param, name: &str) -> bool
    ensures { result ≡ is_param name.now param.now }
{
    param.name.as_str() == name
}
