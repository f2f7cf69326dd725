//! Reads a text as an end of a date range, for `date:` in `nm_query`.

ghost use Rattle.std.specs.Prelude.{◌≡◌, ◌<◌, ◌≤◌, length, IfOk, IfSome, IsTrue, MatchResult, None, Some};
ghost use Rattle.nm_dates.specs.Ends.{after_digits, after_gap, ago_end, calendar_end, day_end, digit_count, end_of, from_day, from_month, from_year, is_named, is_unit, leading_digits, month_end, named_end, second_end, signed_second, unit_of, year_end};
ghost use Rattle.nm_dates.specs.Seconds.{is_end};

use crate::numbers::{is_digit, number};
use crate::{BadDate, DateUnit, End};
use jiff_core::civil::Date;

/// The end that a text is: `@` and a second; `YYYY`, `YYYY-MM` or `YYYY-MM-DD`, a date that is there; `today` or
/// `yesterday`; or a number of hours, days, weeks, months or years ago. Names ignore ASCII case.
pub fn read_end(text: &str) -> Result<End, BadDate>
    ensures value { MatchResult result (λ end. end_of text.now ≡ Some end) (λ _. end_of text.now ≡ None) }
    ensures within { IfOk result (λ end. IsTrue (is_end end)) }
{
    let text = text.as_bytes();
    if let Some(end) = second_end(text) {
        return Ok(end);
    }
    if let Some(end) = calendar_end(text) {
        return Ok(end);
    }
    if let Some(end) = named_end(text) {
        return Ok(end);
    }
    match ago_end(text) {
        Some(end) => Ok(end),
        None => Err(BadDate),
    }
}

/// `@`, and a number that may be negative.
fn second_end(text: &[u8]) -> Option<End>
    ensures value { result ≡ second_end text.now }
    ensures within { IfSome result (λ end. IsTrue (is_end end)) }
{
    match text {
        [b'@', b'-', digits @ ..] => match number(digits, 12) {
            Some(second) => Some(End::Second(-(second as i64))),
            None => None,
        },
        [b'@', digits @ ..] => match number(digits, 12) {
            Some(second) => Some(End::Second(second as i64)),
            None => None,
        },
        _ => None,
    }
}

/// A year, a month or a day.
fn calendar_end(text: &[u8]) -> Option<End>
    ensures value { result ≡ calendar_end text.now }
    ensures within { IfSome result (λ end. IsTrue (is_end end)) }
{
    match text.len() {
        4 => from_year(text),
        7 => from_month(text),
        10 => from_day(text),
        _ => None,
    }
}

fn from_year(text: &[u8]) -> Option<End>
    ensures value { result ≡ from_year text.now }
    ensures within { IfSome result (λ end. IsTrue (is_end end)) }
{
    let year = number(text, 4)?;
    year_end(year)
}

fn from_month(text: &[u8]) -> Option<End>
    requires { length text.now ≡ 7 }
    ensures value { result ≡ from_month text.now }
    ensures within { IfSome result (λ end. IsTrue (is_end end)) }
{
    if text[4] != b'-' {
        return None;
    }
    let year = number(&text[..4], 4)?;
    let month = number(&text[5..7], 2)?;
    month_end(year, month)
}

fn from_day(text: &[u8]) -> Option<End>
    requires { length text.now ≡ 10 }
    ensures value { result ≡ from_day text.now }
    ensures within { IfSome result (λ end. IsTrue (is_end end)) }
{
    if text[4] != b'-' || text[7] != b'-' {
        return None;
    }
    let year = number(&text[..4], 4)?;
    let month = number(&text[5..7], 2)?;
    let day = number(&text[8..10], 2)?;
    day_end(year, month, day)
}

fn year_end(year: u64) -> Option<End>
    requires { year < 10000 }
    ensures value { result ≡ year_end year }
    ensures within { IfSome result (λ end. IsTrue (is_end end)) }
{
    if year == 0 {
        return None;
    }
    Some(End::Year(year as u16))
}

fn month_end(year: u64, month: u64) -> Option<End>
    requires year { year < 10000 }
    requires month { month < 100 }
    ensures value { result ≡ month_end year month }
    ensures within { IfSome result (λ end. IsTrue (is_end end)) }
{
    if year == 0 || month == 0 || month > 12 {
        return None;
    }
    Some(End::Month(year as u16, month as u8))
}

fn day_end(year: u64, month: u64, day: u64) -> Option<End>
    requires year { year < 10000 }
    requires month { month < 100 }
    requires day { day < 100 }
    ensures value { result ≡ day_end year month day }
    ensures within { IfSome result (λ end. IsTrue (is_end end)) }
{
    if year == 0 || month == 0 || month > 12 || day == 0 {
        return None;
    }
    let kept = Date::constrain(year as i16, month as u8, day as u8);
    if kept.day as u64 != day {
        return None;
    }
    Some(End::Day(year as u16, month as u8, day as u8))
}

fn named_end(text: &[u8]) -> Option<End>
    ensures value { result ≡ named_end text.now }
    ensures within { IfSome result (λ end. IsTrue (is_end end)) }
{
    if is_named(text, b"today") {
        return Some(End::Today);
    }
    if is_named(text, b"yesterday") {
        return Some(End::Yesterday);
    }
    None
}

/// A number, at most one space or `_`, and a unit.
fn ago_end(text: &[u8]) -> Option<End>
    ensures value { result ≡ ago_end text.now }
    ensures within { IfSome result (λ end. IsTrue (is_end end)) }
{
    let (digits, rest) = cut_digits(text);
    let n = number(digits, 6)?;
    let unit = unit_of(after_gap(rest))?;
    Some(End::Ago(n as u32, unit))
}

/// The digits at the front, and what comes after them.
fn cut_digits(text: &[u8]) -> (&[u8], &[u8])
    ensures digits { result.0.now ≡ leading_digits text.now }
    ensures rest { result.1.now ≡ after_digits text.now }
{
    text.split_at(digit_count(text))
}

fn digit_count(text: &[u8]) -> usize
    ensures count { result ≡ digit_count text.now }
    ensures bound { result ≤ length text.now }
{
    'digits: for (at, byte) in text.iter().enumerate() {
        if !is_digit(*byte) {
            return at;
        }
    }
    text.len()
}

fn after_gap(text: &[u8]) -> &[u8]
    ensures { result.now ≡ after_gap text.now }
{
    match text {
        [b' ' | b'_', rest @ ..] => rest,
        _ => text,
    }
}

fn unit_of(text: &[u8]) -> Option<DateUnit>
    ensures { result ≡ unit_of text.now }
{
    if is_unit(text, b"hour", b"hours") {
        return Some(DateUnit::Hours);
    }
    if is_unit(text, b"day", b"days") {
        return Some(DateUnit::Days);
    }
    if is_unit(text, b"week", b"weeks") {
        return Some(DateUnit::Weeks);
    }
    if is_unit(text, b"month", b"months") {
        return Some(DateUnit::Months);
    }
    if is_unit(text, b"year", b"years") {
        return Some(DateUnit::Years);
    }
    None
}

fn is_unit(text: &[u8], name: &[u8], plural: &[u8]) -> bool
    ensures { result ≡ is_unit name.now plural.now text.now }
{
    is_named(text, name) || is_named(text, plural)
}

/// Whether the text is the name, whatever the case of its ASCII letters.
fn is_named(text: &[u8], name: &[u8]) -> bool
    ensures { result ≡ is_named name.now text.now }
{
    text.eq_ignore_ascii_case(name)
}
