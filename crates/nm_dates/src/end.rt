//! What one end of a date range is: `read_end` reads one, a tree of `nm_query` has it, and `seconds` says what it represents.

use thiserror::Error;

/// What `N days` and the like count in.
#[derive(Clone, Copy)]
pub enum DateUnit {
    Hours,
    Days,
    Weeks,
    Months,
    Years,
}

/// One end of a date range. It represents the seconds of its unit of time.
#[derive(Clone, Copy)]
pub enum End {
    /// That second, counted from 1970-01-01 00:00:00 UTC.
    Second(i64),
    /// Year 1 to 9999.
    Year(u16),
    /// Year and month, 1 to 12.
    Month(u16, u8),
    /// Year, month and day.
    Day(u16, u8, u8),
    Today,
    Yesterday,
    /// N units before the moment.
    Ago(u32, DateUnit),
}

/// The text is no end of a date range.
#[derive(Clone, Copy, Debug, Error)]
#[error("no date")]
pub struct BadDate;
