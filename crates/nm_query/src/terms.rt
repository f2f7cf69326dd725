//! What a value asks after its prefix, and what a run or a quoted text asks by itself, for `lexeme`.

ghost use Rattle.std.specs.Prelude.{◌≡◌, ◌+◌, ◌*◌, ◌<◌, ◌≤◌, Err, IfOk, IsTrue, false, length, slice_index};
ghost use Rattle.std.specs.List.{list_all};
ghost use Rattle.nm_base.specs.Limits.{max_query_bytes};
ghost use Rattle.nm_query.specs.Terms.{before_dots, begins_with_dots, date_query, end_at, ends_with, field_query, folder_path_query, hex_number, hex_value, is_hex_digit, is_pattern, is_same_end, lacks_value, may_be_empty, name_query, named_query, one_date, optional_end, path_query, range_query, run_query, said_query, second_place, tag_query, takes_pattern, term_kind, thread_number, thread_query, two_dates, with_hex_digit, words_query};

use crate::prefixes::Name;
use crate::token::TermKind;
use crate::values::Value;
use crate::{Query, QueryError, QueryKind};
use nm_base::{Copies, Field, NoMemory, Text};
use nm_dates::{End, read_end};
use nm_words::words;
use std::alloc::Global;

/// What a value asks of a field, for a term at one place whose value begins at another.
pub(crate) fn field_query(
    alloc: Global,
    at: u32,
    from: u32,
    field: Field,
    value: &Value,
) -> Result<Result<Query, QueryError>, NoMemory>
    ensures { IfOk result (λ query. query ≡ field_query at from field value.now) }
{
    if value.said.as_bytes().is_empty() {
        return Ok(refused(from, QueryKind::Value));
    }
    if takes_pattern(field) && is_pattern(value.said.as_bytes()) {
        return Ok(refused(at, QueryKind::NotHere));
    }
    let query = said_query(alloc, Some(field), value)?;
    Ok(Ok(query))
}

fn refused(at: u32, kind: QueryKind) -> Result<Query, QueryError>
    ensures { result ≡ Err (QueryError.BadQuery at kind) }
{
    Err(QueryError::BadQuery { at, kind })
}

fn takes_pattern(field: Field) -> bool
    ensures { result ≡ takes_pattern field }
{
    match field {
        Field::From | Field::Subject => true,
        Field::To | Field::Body | Field::Attachment => false,
    }
}

/// Whether it has the form of a pattern: a `/` at its front, and another one at its end.
fn is_pattern(text: &[u8]) -> bool
    ensures { result ≡ is_pattern text.now }
{
    if text.len() < 2 {
        return false;
    }
    if text[0] != b'/' {
        return false;
    }
    ends_with(b'/', text)
}

fn ends_with(byte: u8, text: &[u8]) -> bool
    ensures { result ≡ ends_with byte text.now }
{
    if text.is_empty() {
        return false;
    }
    text[text.len() - 1] == byte
}

fn said_query(alloc: Global, field: Option<Field>, value: &Value) -> Result<Query, NoMemory>
    ensures { IfOk result (λ query. query ≡ said_query field value.now) }
{
    if value.quoted {
        return words_query(alloc, field, value.said.as_str());
    }
    run_query(alloc, field, value.said.as_str())
}

/// The words of a text, as they are.
pub(crate) fn words_query(
    alloc: Global,
    field: Option<Field>,
    text: &str,
) -> Result<Query, NoMemory>
    ensures { IfOk result (λ query. query ≡ words_query field text.now) }
{
    let words = words(alloc, text)?;
    Ok(Query::Words {
        field,
        words,
        starts: false,
    })
}

/// The words of a run: with a `*` at its end the last is the front of a word.
pub(crate) fn run_query(alloc: Global, field: Option<Field>, run: &str) -> Result<Query, NoMemory>
    ensures { IfOk result (λ query. query ≡ run_query field run.now) }
{
    if !ends_with(b'*', run.as_bytes()) {
        return words_query(alloc, field, run);
    }
    let words = words(alloc, &run[..run.len() - 1])?;
    Ok(Query::Words {
        field,
        words,
        starts: true,
    })
}

/// What a value asks after a name, for a term at one place whose value begins at another.
pub(crate) fn name_query(
    alloc: Global,
    at: u32,
    from: u32,
    name: Name,
    value: &Value,
) -> Result<Result<Query, QueryError>, NoMemory>
    requires { value.now.quoted ≡ false → from + length value.now.said ≤ max_query_bytes }
    ensures { IfOk result (λ query. query ≡ name_query at from name value.now) }
{
    if lacks_value(name, value) {
        return Ok(refused(from, QueryKind::Value));
    }
    named_query(alloc, at, from, name, value)
}

fn lacks_value(name: Name, value: &Value) -> bool
    ensures { result ≡ lacks_value name value.now }
{
    if !value.said.as_bytes().is_empty() {
        return false;
    }
    !(value.quoted && may_be_empty(name))
}

fn may_be_empty(name: Name) -> bool
    ensures { result ≡ may_be_empty name }
{
    match name {
        Name::Folder | Name::Path => true,
        Name::Tag | Name::Is | Name::Id | Name::Thread | Name::Mime | Name::Date => false,
    }
}

fn named_query(
    alloc: Global,
    at: u32,
    from: u32,
    name: Name,
    value: &Value,
) -> Result<Result<Query, QueryError>, NoMemory>
    requires { value.now.quoted ≡ false → from + length value.now.said ≤ max_query_bytes }
    ensures { IfOk result (λ query. query ≡ named_query at from name value.now) }
{
    match name {
        Name::Tag => tag_query(at, &value.said),
        Name::Is => Ok(Ok(Query::Tag(value.said.copy()?))),
        Name::Id => Ok(Ok(Query::Id(value.said.copy()?))),
        Name::Thread => Ok(thread_query(at, value.said.as_bytes())),
        Name::Folder => Ok(Ok(Query::Folder(value.said.copy()?))),
        Name::Path => folder_path_query(alloc, at, value.said.as_str()),
        Name::Mime => Ok(Ok(Query::Mime(value.said.copy()?))),
        Name::Date => Ok(date_query(from, value)),
    }
}

fn tag_query(at: u32, text: &Text) -> Result<Result<Query, QueryError>, NoMemory>
    ensures { IfOk result (λ query. query ≡ tag_query at text.now) }
{
    if is_pattern(text.as_bytes()) {
        return Ok(refused(at, QueryKind::NotHere));
    }
    Ok(Ok(Query::Tag(text.copy()?)))
}

fn thread_query(at: u32, text: &[u8]) -> Result<Query, QueryError>
    ensures { result ≡ thread_query at text.now }
{
    if text.first() == Some(&b'{') {
        return refused(at, QueryKind::NotHere);
    }
    Ok(Query::Thread(thread_number(text)))
}

/// The number of a thread: 16 lower-case hexadecimal digits.
fn thread_number(text: &[u8]) -> Option<u64>
    ensures { result ≡ thread_number text.now }
{
    if text.len() != 16 || !are_hex_digits(text) {
        return None;
    }
    Some(hex_number(text))
}

fn are_hex_digits(text: &[u8]) -> bool
    ensures { result ≡ list_all is_hex_digit text.now }
{
    text.iter().all(|byte| is_hex_digit(*byte))
}

fn is_hex_digit(byte: u8) -> bool
    ensures { result ≡ is_hex_digit byte }
{
    matches!(byte, b'0'..=b'9' | b'a'..=b'f')
}

fn hex_number(text: &[u8]) -> u64
    requires few { length text.now ≤ 16 }
    requires digits { IsTrue (list_all is_hex_digit text.now) }
    ensures { result ≡ hex_number text.now }
{
    let mut number = 0;
    'digits: for digit in text {
        number = with_hex_digit(number, *digit);
    }
    number
}

fn with_hex_digit(number: u64, digit: u8) -> u64
    requires number { number < 1152921504606846976 }
    requires digit { IsTrue (is_hex_digit digit) }
    ensures value { result ≡ with_hex_digit number digit }
    ensures bound { result < (number + 1) * 16 }
{
    number * 16 + hex_value(digit)
}

fn hex_value(digit: u8) -> u64
    requires { IsTrue (is_hex_digit digit) }
    ensures value { result ≡ hex_value digit }
    ensures bound { result < 16 }
{
    if digit <= b'9' {
        return u64::from(digit - b'0');
    }
    u64::from(digit - b'a' + 10)
}

fn folder_path_query(
    alloc: Global,
    at: u32,
    text: &str,
) -> Result<Result<Query, QueryError>, NoMemory>
    ensures { IfOk result (λ query. query ≡ folder_path_query at text.now) }
{
    if is_pattern(text.as_bytes()) {
        return Ok(refused(at, QueryKind::NotHere));
    }
    let query = path_query(alloc, text)?;
    Ok(Ok(query))
}

/// A folder, and all below it where `**` or `/**` is at the end.
fn path_query(alloc: Global, text: &str) -> Result<Query, NoMemory>
    ensures { IfOk result (λ query. query ≡ path_query text.now) }
{
    if text == "**" {
        return Ok(Query::Path {
            dir: Text::new(alloc),
            deep: true,
        });
    }
    if text.as_bytes().ends_with(b"/**") {
        let dir = Text::of(alloc, &text[..text.len() - 3])?;
        return Ok(Query::Path { dir, deep: true });
    }
    let dir = Text::of(alloc, text)?;
    Ok(Query::Path { dir, deep: false })
}

/// A range of dates: cut at its first `..`; without one both ends are the same.
fn date_query(from: u32, value: &Value) -> Result<Query, QueryError>
    requires { value.now.quoted ≡ false → from + length value.now.said ≤ max_query_bytes }
    ensures { result ≡ date_query from value.now }
{
    let text = value.said.as_str();
    let dots = before_dots(text.as_bytes());
    if dots == text.len() {
        return one_date(from, text);
    }
    let second = second_place(from, value.quoted, dots);
    range_query(from, second, &text[..dots], &text[dots + 2..])
}

/// The place of the second end: a quoted range has one place.
fn second_place(from: u32, quoted: bool, dots: usize) -> u32
    requires { quoted ≡ false → from + dots ≤ max_query_bytes }
    ensures { result ≡ second_place from quoted dots }
{
    if quoted {
        return from;
    }
    from + dots as u32 + 2
}

/// How many bytes come before the first `..`.
#[tactic(auto, using(crate::proofs::DotLemmas::dots_further, crate::proofs::DotLemmas::dots_here, crate::proofs::DotLemmas::dots_found))]
fn before_dots(text: &[u8]) -> usize
    ensures place { result ≡ before_dots text.now }
    ensures found { result < length text.now → (result + 1 < length text.now) × (slice_index text.now result ≡ 46) × (slice_index text.now (result + 1) ≡ 46) }
    ensures within { result ≤ length text.now }
{
    let mut at = 0;
    'places: while at < text.len() {
        if begins_with_dots(&text[at..]) {
            return at;
        }
        at += 1;
    }
    at
}

fn begins_with_dots(text: &[u8]) -> bool
    ensures { result ≡ begins_with_dots text.now }
{
    match text {
        [first, second, ..] => *first == b'.' && *second == b'.',
        _ => false,
    }
}

fn range_query(at: u32, at_to: u32, from: &str, to: &str) -> Result<Query, QueryError>
    ensures { result ≡ range_query at at_to from.now to.now }
{
    if !from.is_empty() && to == "!" {
        return one_date(at, from);
    }
    two_dates(at, from, at_to, to)
}

fn one_date(at: u32, text: &str) -> Result<Query, QueryError>
    ensures { result ≡ one_date at text.now }
{
    match end_at(at, text) {
        Ok(end) => Ok(Query::Dates {
            from: Some(end),
            to: Some(end),
        }),
        Err(refusal) => Err(refusal),
    }
}

fn two_dates(at: u32, from: &str, at_to: u32, to: &str) -> Result<Query, QueryError>
    ensures { result ≡ two_dates at from.now at_to to.now }
{
    match optional_end(at, from) {
        Ok(from) => match optional_end(at_to, to) {
            Ok(to) => Ok(Query::Dates { from, to }),
            Err(refusal) => Err(refusal),
        },
        Err(refusal) => Err(refusal),
    }
}

fn optional_end(at: u32, text: &str) -> Result<Option<End>, QueryError>
    ensures { result ≡ optional_end at text.now }
{
    if text.is_empty() {
        return Ok(None);
    }
    match end_at(at, text) {
        Ok(end) => Ok(Some(end)),
        Err(refusal) => Err(refusal),
    }
}

fn end_at(at: u32, text: &str) -> Result<End, QueryError>
    ensures { result ≡ end_at at text.now }
{
    match read_end(text) {
        Ok(end) => Ok(end),
        Err(_) => Err(QueryError::BadDate { at }),
    }
}

/// With which terms of its group a term of that name is joined by Or.
pub(crate) fn term_kind(name: Name) -> TermKind
    ensures { result ≡ term_kind name }
{
    match name {
        Name::Tag | Name::Is => TermKind::Tag,
        Name::Id => TermKind::Id,
        Name::Thread => TermKind::Thread,
        Name::Folder => TermKind::Folder,
        Name::Path => TermKind::Path,
        Name::Mime | Name::Date => TermKind::Other,
    }
}
