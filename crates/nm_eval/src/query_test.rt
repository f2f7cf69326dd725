//! When a message passes a query, node by node of its tree: `matches` asks it of each message.

ghost use Rattle.std.specs.Prelude.{◌≡◌, ◌∷◌, ◌&&◌, map};
ghost use Rattle.std.specs.List.{list_all, list_any};
ghost use Rattle.nm_dates.specs.Seconds.{IsMoment};
ghost use Rattle.nm_model_answer.specs.Places.{has_type, is_at_path, is_in_maildir};
ghost use Rattle.nm_model_answer.specs.Test.{is_from, is_odd, is_to, passes};
ghost use Rattle.nm_model_answer.specs.View.{lead_date};
ghost use Rattle.nm_model_answer.specs.Words.{files_have};

use crate::message::Message;
use crate::places::{has_type, is_at_path, is_in_maildir};
use crate::words::facts_have;
use nm_base::{Field, Text, WordList, Words};
use nm_dates::{End, first_second, is_end, last_second};
use nm_model_answer::a_tree_passes_as_its_queries_do;
use nm_query::Query;

/// Says whether the message passes the query.
#[cycle(passing)]
pub(crate) fn passes(query: &Query, message: &Message<'_>, moment: i64) -> bool
    requires { IsMoment moment }
    ensures { result ≡ passes query.now message.now moment }
{
    a_tree_passes_as_its_queries_do();
    match query {
        Query::All => true,
        Query::Words {
            field,
            words,
            starts,
        } => have_words(message, *field, *starts, words),
        Query::Tag(tag) => message.has_tag(tag.as_str()),
        Query::Id(id) => message.has_id(id.as_str()),
        Query::Thread(number) => message.is_in_thread(*number),
        Query::Folder(folder) => lie_in_maildir(message, folder),
        Query::Path { dir, deep } => lie_at_path(message, dir, *deep),
        Query::Mime(text) => have_type(message, text),
        Query::Dates { from, to } => is_dated(message, *from, *to, moment),
        Query::Not(query) => !passes(query.get(), message, moment),
        Query::And(queries) => all_pass(queries.as_slice(), message, moment),
        Query::Or(queries) => any_passes(queries.as_slice(), message, moment),
        Query::Xor(queries) => odd_pass(queries.as_slice(), message, moment),
    }
}

/// Says whether all queries are passed.
#[cycle(passing)]
fn all_pass(queries: &[Query], message: &Message<'_>, moment: i64) -> bool
    requires { IsMoment moment }
    ensures { result ≡ list_all (λ query. passes query message.now moment) queries.now }
{
    'queries: for query in queries {
        if !passes(query, message, moment) {
            return false;
        }
    }
    true
}

/// Says whether one of the queries is passed.
#[cycle(passing)]
fn any_passes(queries: &[Query], message: &Message<'_>, moment: i64) -> bool
    requires { IsMoment moment }
    ensures { result ≡ list_any (λ query. passes query message.now moment) queries.now }
{
    'queries: for query in queries {
        if passes(query, message, moment) {
            return true;
        }
    }
    false
}

/// Says whether an odd number of the queries is passed.
#[cycle(passing)]
fn odd_pass(queries: &[Query], message: &Message<'_>, moment: i64) -> bool
    requires { IsMoment moment }
    ensures { result ≡ is_odd (map (λ query. passes query message.now moment) queries.now) }
{
    let mut is_odd = false;
    'queries: for query in queries {
        if passes(query, message, moment) {
            is_odd = !is_odd;
        }
    }
    is_odd
}

fn have_words(message: &Message<'_>, field: Option<Field>, starts: bool, words: &WordList) -> bool
    ensures { result ≡ files_have field starts words.now message.now.files }
{
    let mut more = words.words();
    let Some(first) = more.take_first() else {
        return true;
    };
    files_have(message, field, starts, first, &more)
}

/// Says whether one of the files has the words, a first one and then more.
fn files_have(
    message: &Message<'_>,
    field: Option<Field>,
    starts: bool,
    first: &[u8],
    more: &Words<'_>,
) -> bool
    ensures { result ≡ files_have field starts (first.now ∷ more.now) message.now.files }
{
    let Some(mut files) = message.files() else {
        return false;
    };
    'files: while let Some((_, facts)) = files.next() {
        if facts_have(field, starts, first, more, facts) {
            return true;
        }
    }
    false
}

fn lie_in_maildir(message: &Message<'_>, folder: &Text) -> bool
    ensures { result ≡ list_any (λ file. is_in_maildir folder.now file.0) message.now.files }
{
    let Some(mut files) = message.files() else {
        return false;
    };
    'files: while let Some((path, _)) = files.next() {
        if is_in_maildir(folder, path) {
            return true;
        }
    }
    false
}

fn lie_at_path(message: &Message<'_>, folder: &Text, deep: bool) -> bool
    ensures { result ≡ list_any (λ file. is_at_path folder.now deep file.0) message.now.files }
{
    let Some(mut files) = message.files() else {
        return false;
    };
    'files: while let Some((path, _)) = files.next() {
        if is_at_path(folder, deep, path) {
            return true;
        }
    }
    false
}

fn have_type(message: &Message<'_>, text: &Text) -> bool
    ensures { result ≡ has_type text.now message.now.files }
{
    let Some(mut files) = message.files() else {
        return false;
    };
    'files: while let Some((_, facts)) = files.next() {
        if has_type(text, facts) {
            return true;
        }
    }
    false
}

/// Says whether the date of the lead file is between the ends.
fn is_dated(message: &Message<'_>, from: Option<End>, to: Option<End>, moment: i64) -> bool
    requires { IsMoment moment }
    ensures { result ≡ (is_from from moment (lead_date message.now.files) && is_to to moment (lead_date message.now.files)) }
{
    let date = lead_date(message);
    if !is_from(from, moment, date) {
        return false;
    }
    is_to(to, moment, date)
}

fn lead_date(message: &Message<'_>) -> i64
    ensures { result ≡ lead_date message.now.files }
{
    let Some(mut files) = message.files() else {
        return 0;
    };
    match files.next() {
        Some((_, facts)) => facts.date,
        None => 0,
    }
}

fn is_from(from: Option<End>, moment: i64, date: i64) -> bool
    requires { IsMoment moment }
    ensures { result ≡ is_from from moment date }
{
    let Some(end) = from else {
        return true;
    };
    if !is_end(end) {
        return false;
    }
    first_second(end, moment) <= date
}

fn is_to(to: Option<End>, moment: i64, date: i64) -> bool
    requires { IsMoment moment }
    ensures { result ≡ is_to to moment date }
{
    let Some(end) = to else {
        return true;
    };
    if !is_end(end) {
        return false;
    }
    date <= last_second(end, moment)
}
