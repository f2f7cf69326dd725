//! Rows on the ends of date ranges, and on the text of a day, for `answers`; `query_rows` and `command_rows` show ends and
//! moments too.

use crate::values::moment_of;
use nm_dates::{DateUnit, End, day_text, first_second, last_second, read_end};
use rows::{Lines, Row, RowError, signed_of};

/// `END: FIRST to LAST`, the seconds at the moment after `?`, or `no end`.
pub fn push_seconds(lines: &mut Lines, row: &Row<'_>, text: &str) -> Result<(), RowError> {
    let moment = moment_of(row)?;
    lines.begin();
    match read_end(text) {
        Ok(end) => {
            push_end(lines, end);
            push_signed(lines, b": ", first_second(end, moment));
            push_signed(lines, b" to ", last_second(end, moment));
        }
        Err(_) => lines.push(b"no end"),
    }
    Ok(())
}

/// The date of a second.
pub fn push_day(lines: &mut Lines, text: &[u8]) -> Result<(), RowError> {
    let second = signed_of(text)?;
    if second < -62135596800 || second > 253402300799 {
        return Err(RowError::Broken("no second that has a date"));
    }
    lines.line(&day_text(second));
    Ok(())
}

/// What the end is, by its numbers.
pub fn push_end(lines: &mut Lines, end: End) {
    match end {
        End::Second(second) => push_signed(lines, b"second ", second),
        End::Year(year) => push_part(lines, b"year ", year),
        End::Month(year, month) => {
            push_part(lines, b"month ", year);
            push_part(lines, b"-", u16::from(month));
        }
        End::Day(year, month, day) => {
            push_part(lines, b"day ", year);
            push_part(lines, b"-", u16::from(month));
            push_part(lines, b"-", u16::from(day));
        }
        End::Today => lines.push(b"today"),
        End::Yesterday => lines.push(b"yesterday"),
        End::Ago(count, unit) => {
            lines.push_number(u64::from(count));
            lines.push(unit_name(unit));
        }
    }
}

fn push_part(lines: &mut Lines, front: &[u8], number: u16) {
    lines.push(front);
    lines.push_number(u64::from(number));
}

/// The front, and a number that may be negative.
pub fn push_signed(lines: &mut Lines, front: &[u8], number: i64) {
    lines.push(front);
    if number < 0 {
        lines.push(b"-");
    }
    lines.push_number(number.unsigned_abs());
}

fn unit_name(unit: DateUnit) -> &'static [u8] {
    match unit {
        DateUnit::Hours => b" hours ago",
        DateUnit::Days => b" days ago",
        DateUnit::Weeks => b" weeks ago",
        DateUnit::Months => b" months ago",
        DateUnit::Years => b" years ago",
    }
}
