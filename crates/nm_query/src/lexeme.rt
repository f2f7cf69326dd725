//! What begins at a place of a query: white space, a parenthesis, an operator or a term. `tokens` asks it at each place.

ghost use Rattle.std.specs.Prelude.{◌≡◌, ◌+◌, ◌-◌, ◌<◌, ◌≤◌, Err, IfOk, length, true};
ghost use Rattle.std.specs.Str.{IsCharBoundary};
ghost use Rattle.nm_base.specs.Limits.{max_query_bytes};
ghost use Rattle.nm_query.specs.Lexemes.{begins_run, field_term, further_at, goes_on, lexeme_at, name_term, passed, quoted_term, run_token, sign_at, token_of, unfielded_at, unprefixed_at, word_at};
ghost use Rattle.nm_query.specs.Prefixes.{CutsOff};
ghost use Rattle.nm_query.specs.Values.{quoted_value};

use crate::prefixes::{
    FieldPrefix, NamePrefix, begins_what_is_not_here, field_prefix, folder_prefix, tag_prefix,
};
use crate::terms::{field_query, name_query, run_query, term_kind, words_query};
use crate::token::{Item, Lexeme, Operator, TermKind, Token};
use crate::values::{Ends, begins_with, read_quoted, read_value, run_len};
use crate::{Query, QueryError, QueryKind};
use nm_base::NoMemory;
use nm_text::{is_white_space, same_ignoring_case};
use std::alloc::Global;

/// What begins at this place, which is that of the text's first byte.
pub(crate) fn lexeme_at(
    alloc: Global,
    at: u32,
    text: &str,
) -> Result<Result<Lexeme, QueryError>, NoMemory>
    requires some { 0 < length text.now }
    requires place { at + length text.now ≤ max_query_bytes }
    ensures value { IfOk result (λ lexeme. lexeme ≡ lexeme_at at text.now) }
    ensures cut { IfOk result (λ lexeme. IfOk lexeme (λ lexeme. CutsOff text.now lexeme.len)) }
{
    let bytes = text.as_bytes();
    if !goes_on(bytes) {
        return Ok(Ok(passed(1)));
    }
    if begins_with(b'(', bytes) {
        return Ok(Ok(token_of(Token::Open, 1)));
    }
    if begins_with(b')', bytes) {
        return Ok(Ok(token_of(Token::Close, 1)));
    }
    if begins_with(b'"', bytes) {
        return quoted_term(alloc, at, &text[1..]);
    }
    sign_at(alloc, at, text)
}

fn passed(len: usize) -> Lexeme
    ensures { result ≡ passed len }
{
    Lexeme { token: None, len }
}

fn token_of(token: Token, len: usize) -> Lexeme
    ensures { result ≡ token_of token len }
{
    Lexeme {
        token: Some(token),
        len,
    }
}

fn term_of(kind: TermKind, query: Query, len: usize) -> Lexeme
    ensures { result ≡ token_of (Token.Term (record { kind = kind; query = query })) len }
{
    token_of(Token::Term(Item { kind, query }), len)
}

/// Whether a byte that is no white space is at the front.
fn goes_on(text: &[u8]) -> bool
    ensures { result ≡ goes_on text.now }
{
    match text {
        [] => false,
        [first, ..] => !is_white_space(*first),
    }
}

/// A quoted text by itself, by what comes after its `"`.
fn quoted_term(alloc: Global, at: u32, text: &str) -> Result<Result<Lexeme, QueryError>, NoMemory>
    ensures value { IfOk result (λ lexeme. lexeme ≡ quoted_term (quoted_value at text.now)) }
    ensures cut { IfOk result (λ lexeme. IfOk lexeme (λ lexeme. (2 ≤ lexeme.len) × IsCharBoundary text.now (lexeme.len - 1))) }
{
    match read_quoted(alloc, at, text)? {
        Ok(value) => {
            let query = words_query(alloc, None, value.said.as_str())?;
            Ok(Ok(term_of(TermKind::Other, query, value.len)))
        }
        Err(refusal) => Ok(Err(refusal)),
    }
}

/// A `-` or a `+` where a byte that is no white space follows at once, or a word.
fn sign_at(alloc: Global, at: u32, text: &str) -> Result<Result<Lexeme, QueryError>, NoMemory>
    requires some { begins_run text.now ≡ true }
    requires place { at + length text.now ≤ max_query_bytes }
    ensures value { IfOk result (λ lexeme. lexeme ≡ sign_at at text.now) }
    ensures cut { IfOk result (λ lexeme. IfOk lexeme (λ lexeme. CutsOff text.now lexeme.len)) }
{
    let bytes = text.as_bytes();
    if begins_with(b'-', bytes) && goes_on(&bytes[1..]) {
        return Ok(Ok(token_of(Token::Negation, 1)));
    }
    if begins_with(b'+', bytes) && goes_on(&bytes[1..]) {
        return Ok(Ok(passed(1)));
    }
    word_at(alloc, at, text)
}

/// A term with or without a prefix, or an operator that is a word.
fn word_at(alloc: Global, at: u32, text: &str) -> Result<Result<Lexeme, QueryError>, NoMemory>
    requires some { begins_run text.now ≡ true }
    requires place { at + length text.now ≤ max_query_bytes }
    ensures value { IfOk result (λ lexeme. lexeme ≡ word_at at text.now) }
    ensures cut { IfOk result (λ lexeme. IfOk lexeme (λ lexeme. CutsOff text.now lexeme.len)) }
{
    match field_prefix(text) {
        Some((prefix, rest)) => field_term(alloc, at, prefix, rest),
        None => unfielded_at(alloc, at, text),
    }
}

fn unfielded_at(alloc: Global, at: u32, text: &str) -> Result<Result<Lexeme, QueryError>, NoMemory>
    requires some { begins_run text.now ≡ true }
    requires place { at + length text.now ≤ max_query_bytes }
    ensures value { IfOk result (λ lexeme. lexeme ≡ unfielded_at at text.now) }
    ensures cut { IfOk result (λ lexeme. IfOk lexeme (λ lexeme. CutsOff text.now lexeme.len)) }
{
    match tag_prefix(text) {
        Some((prefix, rest)) => name_term(alloc, at, prefix, rest),
        None => further_at(alloc, at, text),
    }
}

fn further_at(alloc: Global, at: u32, text: &str) -> Result<Result<Lexeme, QueryError>, NoMemory>
    requires some { begins_run text.now ≡ true }
    requires place { at + length text.now ≤ max_query_bytes }
    ensures value { IfOk result (λ lexeme. lexeme ≡ further_at at text.now) }
    ensures cut { IfOk result (λ lexeme. IfOk lexeme (λ lexeme. CutsOff text.now lexeme.len)) }
{
    match folder_prefix(text) {
        Some((prefix, rest)) => name_term(alloc, at, prefix, rest),
        None => unprefixed_at(alloc, at, text),
    }
}

/// A run: an operator or words.
fn unprefixed_at(alloc: Global, at: u32, text: &str) -> Result<Result<Lexeme, QueryError>, NoMemory>
    requires some { begins_run text.now ≡ true }
    requires place { at + length text.now ≤ max_query_bytes }
    ensures value { IfOk result (λ lexeme. lexeme ≡ unprefixed_at at text.now) }
    ensures cut { IfOk result (λ lexeme. IfOk lexeme (λ lexeme. CutsOff text.now lexeme.len)) }
{
    if begins_what_is_not_here(text.as_bytes()) {
        return Ok(not_here(at));
    }
    let len = run_len(text.as_bytes(), Ends::Run);
    let token = run_token(alloc, &text[..len])?;
    Ok(Ok(token_of(token, len)))
}

fn not_here(at: u32) -> Result<Lexeme, QueryError>
    ensures { result ≡ Err (QueryError.BadQuery at QueryKind.NotHere) }
{
    Err(QueryError::BadQuery {
        at,
        kind: QueryKind::NotHere,
    })
}

/// The term of a field, by its prefix and what comes after that.
fn field_term(
    alloc: Global,
    at: u32,
    prefix: FieldPrefix,
    text: &str,
) -> Result<Result<Lexeme, QueryError>, NoMemory>
    requires place { at + prefix.len + length text.now ≤ max_query_bytes }
    ensures value { IfOk result (λ lexeme. lexeme ≡ field_term at prefix text.now) }
    ensures cut { IfOk result (λ lexeme. IfOk lexeme (λ lexeme. (prefix.len ≤ lexeme.len) × IsCharBoundary text.now (lexeme.len - prefix.len))) }
{
    if begins_with(b'(', text.as_bytes()) {
        return Ok(not_here(at));
    }
    let from = at + prefix.len as u32;
    match read_value(alloc, from, text, Ends::Run)? {
        Ok(value) => match field_query(alloc, at, from, prefix.field, &value)? {
            Ok(query) => Ok(Ok(term_of(TermKind::Other, query, prefix.len + value.len))),
            Err(refusal) => Ok(Err(refusal)),
        },
        Err(refusal) => Ok(Err(refusal)),
    }
}

/// The term of a name, by its prefix and what comes after that.
fn name_term(
    alloc: Global,
    at: u32,
    prefix: NamePrefix,
    text: &str,
) -> Result<Result<Lexeme, QueryError>, NoMemory>
    requires place { at + prefix.len + length text.now ≤ max_query_bytes }
    ensures value { IfOk result (λ lexeme. lexeme ≡ name_term at prefix text.now) }
    ensures cut { IfOk result (λ lexeme. IfOk lexeme (λ lexeme. (prefix.len ≤ lexeme.len) × IsCharBoundary text.now (lexeme.len - prefix.len))) }
{
    let from = at + prefix.len as u32;
    match read_value(alloc, from, text, Ends::Name)? {
        Ok(value) => match name_query(alloc, at, from, prefix.name, &value)? {
            Ok(query) => {
                let kind = term_kind(prefix.name);
                Ok(Ok(term_of(kind, query, prefix.len + value.len)))
            }
            Err(refusal) => Ok(Err(refusal)),
        },
        Err(refusal) => Ok(Err(refusal)),
    }
}

/// An operator in any case, `*` for every message, or words.
fn run_token(alloc: Global, run: &str) -> Result<Token, NoMemory>
    ensures { IfOk result (λ token. token ≡ run_token run.now) }
{
    let bytes = run.as_bytes();
    if same_ignoring_case(bytes, b"and") {
        return Ok(Token::Binary(Operator::Conjunction));
    }
    if same_ignoring_case(bytes, b"or") {
        return Ok(Token::Binary(Operator::Disjunction));
    }
    if same_ignoring_case(bytes, b"xor") {
        return Ok(Token::Binary(Operator::Exclusion));
    }
    if same_ignoring_case(bytes, b"not") {
        return Ok(Token::Negation);
    }
    if run == "*" {
        return Ok(Token::Term(Item {
            kind: TermKind::Other,
            query: Query::All,
        }));
    }
    let query = run_query(alloc, None, run)?;
    Ok(Token::Term(Item {
        kind: TermKind::Other,
        query,
    }))
}
