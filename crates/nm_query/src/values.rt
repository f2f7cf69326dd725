//! Quoted texts and runs: `lexeme` reads each term from one of them.

ghost use Rattle.std.specs.Prelude.{◌≡◌, ◌+◌, ◌-◌, ◌≤◌, ◌<◌, ◌∷◌, IfOk, drop, false, length, slice_index, true};
ghost use Rattle.std.specs.List.{position_or_len};
ghost use Rattle.std.specs.Str.{IsCharBoundary};
ghost use Rattle.nm_query.specs.Values.{begins_with, closing, ends_of, quoted_value, undoubled, value_at};

use crate::{QueryError, QueryKind};
use nm_base::{NoMemory, Text};
use nm_text::{is_white_space, text_of};
use std::alloc::Global;

/// A value, and how many bytes it has with its quotes.
#[derive(Drop)]
pub(crate) struct Value {
    pub said: Text,
    pub quoted: bool,
    pub len: usize,
}

/// What ends a value that is not quoted.
#[derive(Clone, Copy)]
pub(crate) enum Ends {
    /// White space, a parenthesis or `"`.
    Run,
    /// White space or `)`.
    Name,
}

/// The value with which the text begins, which is at this place.
pub(crate) fn read_value(
    alloc: Global,
    at: u32,
    text: &str,
    ends: Ends,
) -> Result<Result<Value, QueryError>, NoMemory>
    ensures value { IfOk result (λ value. value ≡ value_at (ends_of ends) at text.now) }
    ensures cut { IfOk result (λ value. IfOk value (λ value. IsCharBoundary text.now value.len)) }
    ensures short { IfOk result (λ value. IfOk value (λ value. value.quoted ≡ false → length value.said ≤ length text.now)) }
{
    if begins_with(b'"', text.as_bytes()) {
        return read_quoted(alloc, at, &text[1..]);
    }
    let len = run_len(text.as_bytes(), ends);
    let said = Text::of(alloc, &text[..len])?;
    Ok(Ok(Value {
        said,
        quoted: false,
        len,
    }))
}

/// Whether this byte is at the front.
pub(crate) fn begins_with(byte: u8, text: &[u8]) -> bool
    ensures { result ≡ begins_with byte text.now }
{
    match text {
        [] => false,
        [first, ..] => *first == byte,
    }
}

/// How many bytes come before the first that ends a value.
pub(crate) fn run_len(text: &[u8], ends: Ends) -> usize
    ensures len { result ≡ position_or_len (ends_of ends) text.now }
    ensures within { result ≤ length text.now }
{
    let mut at = 0;
    'places: while at < text.len() {
        if is_end(text[at], ends) {
            return at;
        }
        at += 1;
    }
    at
}

fn is_end(byte: u8, ends: Ends) -> bool
    ensures { result ≡ ends_of ends byte }
{
    match ends {
        Ends::Run => is_white_space(byte) || byte == b'(' || byte == b')' || byte == b'"',
        Ends::Name => is_white_space(byte) || byte == b')',
    }
}

/// The quoted text whose `"` is at this place, by what comes after that.
pub(crate) fn read_quoted(
    alloc: Global,
    at: u32,
    text: &str,
) -> Result<Result<Value, QueryError>, NoMemory>
    ensures value { IfOk result (λ value. value ≡ quoted_value at text.now) }
    ensures cut { IfOk result (λ value. IfOk value (λ value. (2 ≤ value.len) × IsCharBoundary text.now (value.len - 1))) }
    ensures quoted { IfOk result (λ value. IfOk value (λ value. value.quoted ≡ true)) }
{
    let closing = closing(text.as_bytes());
    if closing == text.len() {
        return Ok(Err(QueryError::BadQuery {
            at,
            kind: QueryKind::Quote,
        }));
    }
    let said = undoubled(alloc, &text[..closing])?;
    Ok(Ok(Value {
        said,
        quoted: true,
        len: closing + 2,
    }))
}

/// How many bytes come before the `"` that ends a quoted text: the first that is not doubled.
fn closing(text: &[u8]) -> usize
    ensures place { result ≡ closing text.now }
    ensures within { result ≤ length text.now }
{
    let mut at = 0;
    'bytes: while at < text.len() {
        let len = said_len(&text[at..]);
        if len == 0 {
            return at;
        }
        at += len;
    }
    at
}

/// How many bytes a quoted text has for its first byte: two for `""`, none where it ends.
#[tactic(auto, using(crate::proofs::QuoteLemmas::closing_end, crate::proofs::QuoteLemmas::closing_one, crate::proofs::QuoteLemmas::closing_two))]
fn said_len(text: &[u8]) -> usize
    requires { 0 < length text.now }
    ensures ends { result ≡ 0 → closing text.now ≡ 0 }
    ensures goes_on { 0 < result → closing text.now ≡ result + closing (drop result text.now) }
    ensures within { result ≤ length text.now }
{
    if text[0] != b'"' {
        return 1;
    }
    if begins_with(b'"', &text[1..]) {
        return 2;
    }
    0
}

/// The text with each `""` as one `"`.
fn undoubled(alloc: Global, text: &str) -> Result<Text, NoMemory>
    ensures { IfOk result (λ said. said ≡ undoubled text.now) }
{
    text_of(undoubled_bytes(alloc, text.as_bytes())?)
}

fn undoubled_bytes(alloc: Global, text: &[u8]) -> Result<Vec<u8>, NoMemory>
    ensures { IfOk result (λ said. said.items ≡ undoubled text.now) }
{
    let mut said = Vec::new(alloc);
    let mut rest = text;
    'bytes: while !rest.is_empty() {
        said.push(rest[0])?;
        rest = &rest[doubled_len(rest)..];
    }
    Ok(said)
}

/// How many bytes represent the first one: two for `""`.
#[tactic(auto, using(crate::proofs::QuoteLemmas::undoubled_one, crate::proofs::QuoteLemmas::undoubled_two))]
fn doubled_len(text: &[u8]) -> usize
    requires { 0 < length text.now }
    ensures rest { undoubled text.now ≡ slice_index text.now 0 ∷ undoubled (drop result text.now) }
    ensures some { 0 < result }
    ensures within { result ≤ length text.now }
{
    if text[0] == b'"' && begins_with(b'"', &text[1..]) {
        return 2;
    }
    1
}
