//! Texts as a summary shows them, for `summary`, `authors` and `message`.

ghost use Rattle.std.specs.Prelude.{◌≡◌, ◌≤◌, ◌++◌, length, IfOk, IsUtf8, OnOk, string_bytes};
ghost use Rattle.nm_model_answer.specs.Json.{joined};
ghost use Rattle.nm_render.specs.Joined.{after_first};
ghost use Rattle.nm_model_answer.specs.Summary.{after_reply, bare_subject, in_range, is_reply, shown, shown_byte, shown_day};
ghost use Rattle.nm_dates.specs.Seconds.{IsShownSecond};

use nm_base::{Many, NoMemory, Text};
use nm_dates::day_text;
use nm_text::trimmed_start;
use std::alloc::Global;

/// The text with its control characters as spaces.
pub(crate) fn shown(alloc: Global, text: &[u8]) -> Result<Many<u8>, NoMemory>
    ensures value { IfOk result (λ bytes. bytes ≡ shown text.now) }
    ensures utf8 { IfOk result (λ bytes. IsUtf8 text.now → IsUtf8 bytes) }
{
    let mut bytes = Many::new(alloc);
    'bytes: for byte in text {
        bytes.push(shown_byte(*byte))?;
    }
    Ok(bytes)
}

fn shown_byte(byte: u8) -> u8
    ensures { result ≡ shown_byte byte }
{
    if byte < 32 || byte == 127 { b' ' } else { byte }
}

/// The subject without the `Re:` at its front.
pub(crate) fn bare_subject(subject: &[u8]) -> &[u8]
    ensures value { result.now ≡ bare_subject subject.now }
    ensures utf8 { IsUtf8 subject.now → IsUtf8 result.now }
{
    let mut rest = subject;
    'replies: while is_reply(rest) {
        rest = after_reply(rest);
    }
    rest
}

fn is_reply(subject: &[u8]) -> bool
    ensures { result ≡ is_reply subject.now }
{
    let rest = trimmed_start(subject);
    rest[..rest.len().min(3)].eq_ignore_ascii_case(b"re:")
}

fn after_reply(subject: &[u8]) -> &[u8]
    ensures value { result.now ≡ after_reply subject.now }
{
    let rest = trimmed_start(subject);
    trimmed_start(&rest[rest.len().min(3)..])
}

/// The first and the last second of which a day is written.
const FIRST: i64 = -62_135_596_800;

const LAST: i64 = 253_402_300_799;

/// The day of a date, as YYYY-MM-DD.
pub(crate) fn shown_day(date: i64) -> [u8; 10]
    ensures { result ≡ shown_day date }
{
    day_text(in_range(date))
}

fn in_range(date: i64) -> i64
    ensures value { result ≡ in_range date }
    ensures range { IsShownSecond result }
{
    if date < FIRST {
        return FIRST;
    }
    if date > LAST {
        return LAST;
    }
    date
}

/// The texts one after the other, with `between` between them.
pub(crate) fn joined(alloc: Global, between: &str, texts: &[Text]) -> Result<String, NoMemory>
    ensures { IfOk result (λ whole. string_bytes whole ≡ joined between.now texts.now) }
{
    let Some((first, more)) = texts.split_first() else {
        return Ok(String::new(alloc));
    };
    let mut whole = String::from_str(alloc, first.as_str())?;
    push_more(&mut whole, between, more)?;
    Ok(whole)
}

/// Adds the texts that follow a first one.
fn push_more(whole: &mut String, between: &str, texts: &[Text]) -> Result<(), NoMemory>
    ensures { OnOk result (string_bytes whole.new ≡ string_bytes whole.old ++ after_first between.now texts.now) }
{
    'texts: for text in texts {
        whole.push_str(between)?;
        whole.push_str(text.as_str())?;
    }
    Ok(())
}
