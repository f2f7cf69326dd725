//! The date of a mail, for `extract`.

ghost use Rattle.std.specs.Prelude.{◌≡◌, IfOk};
ghost use Rattle.nm_base.specs.Limits.{IsDate};
ghost use Rattle.nm_extract.specs.Date.{date_of, kept_second, second_of};

use jiff::Timestamp;
use jiff::fmt::rfc2822::DateTimeParser;
use nm_base::{NoMemory, is_date};
use nm_header::{HeaderList, plain};
use nm_text::trimmed;
use std::alloc::Global;

/// The second that the first Date says, counted from 1970, or 0.
pub(crate) fn date(alloc: Global, header: &HeaderList) -> Result<i64, NoMemory>
    ensures value { IfOk result (λ date. date ≡ date_of header.now.list) }
    ensures range { IfOk result IsDate }
{
    let texts = header.texts(alloc, "date")?;
    match texts.get(0) {
        Some(text) => second_of(alloc, text.as_str()),
        None => Ok(0),
    }
}

fn second_of(alloc: Global, text: &str) -> Result<i64, NoMemory>
    ensures value { IfOk result (λ date. date ≡ second_of text.now) }
    ensures range { IfOk result IsDate }
{
    let plain = plain(alloc, text)?;
    match DateTimeParser::new().parse_timestamp(trimmed(plain.as_bytes())) {
        Ok(moment) => Ok(kept_second(Timestamp::from_plain(moment).as_second())),
        Err(_) => Ok(0),
    }
}

/// The second, where it is a date; else 0.
fn kept_second(second: i64) -> i64
    ensures value { result ≡ kept_second second }
    ensures range { IsDate result }
{
    if !is_date(second) {
        return 0;
    }
    second
}
