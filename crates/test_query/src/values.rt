//! Moments, words of calls, queries and names of refusals in the texts of rows, for `date_rows`, `found_rows`, `command_rows` and others.

ghost use Rattle.std.specs.Prelude.{IfOk};
ghost use Rattle.nm_dates.specs.Seconds.{IsMoment};

use nm_base::{Boxed, Many, NoMemory, Text, UsageKind};
use nm_query::{Query, parse};
use rows::{Row, RowError, text_of};
use std::alloc::Global;

/// The moment after `?`, or the first of 1970.
pub fn moment_of(row: &Row<'_>) -> Result<i64, RowError>
    ensures { IfOk result (λ moment. IsMoment moment) }
{
    let moment = row.number(b"?", 0)?;
    if moment > 253000000000 {
        return Err(RowError::Broken("no moment where the row has one"));
    }
    Ok(moment as i64)
}

/// The words of a call, of which one may be empty; an empty text has none.
pub fn words_of(alloc: Global, text: &[u8], separator: char) -> Result<Many<Text>, RowError> {
    let mut words = Many::new(alloc);
    if !text.is_empty() {
        push_words(alloc, &mut words, text_of(text)?, separator)?;
    }
    Ok(words)
}

fn push_words(
    alloc: Global,
    words: &mut Many<Text>,
    text: &str,
    separator: char,
) -> Result<(), NoMemory> {
    'words: for word in text.split(separator) {
        words.push(Text::of(alloc, word)?)?;
    }
    Ok(())
}

/// In a box it is one value, whatever a query may have.
pub fn query_of(alloc: Global, text: &str) -> Result<Boxed<Query>, RowError> {
    match parse(alloc, text) {
        Ok(query) => Ok(Boxed::new(alloc, query)?),
        Err(_) => Err(RowError::Broken("no query where the row has one")),
    }
}

pub fn usage_name(kind: UsageKind) -> &'static str {
    match kind {
        UsageKind::Command => "COMMAND",
        UsageKind::Option => "OPTION",
        UsageKind::Value => "VALUE",
        UsageKind::Repeat => "REPEAT",
        UsageKind::Missing => "MISSING",
        UsageKind::Extra => "EXTRA",
        UsageKind::Tag => "TAG",
        UsageKind::Clash => "CLASH",
        UsageKind::Lane => "LANE",
        UsageKind::Input => "INPUT",
        UsageKind::Utf8 => "UTF8",
    }
}
