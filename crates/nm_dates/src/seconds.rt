//! The seconds that an end represents, at a moment: `nm_eval` makes them once a query.

ghost use Rattle.std.specs.Prelude.{◌≡◌, ℕ, ◌<◌, ◌≤◌, pos, negsuc, neg_ℤ, ◌≤ℤ◌, ◌-ℤ◌, IsTrue};
ghost use Rattle.jiff_core.specs.Calendar.{days_in_month};
ghost use Rattle.nm_dates.specs.Calendar.{IsDayNumber, date_of, day_number, first_day, is_date, is_month, is_year, last_day, months_before};
ghost use Rattle.nm_dates.specs.Seconds.{IsMoment, ago, day_of, days, from_first, hour_of, is_end, one_day, one_hour, one_second, seconds_of};

use crate::days::{date_of, day_number, last_of_month, months_before};
use crate::{DateUnit, End};

/// From the first to the last of the seconds that an end represents.
#[derive(Clone, Copy)]
pub struct Seconds {
    pub first: i64,
    pub last: i64,
}

/// The number of 0001-01-01, counted from 1970-01-01.
pub(crate) const FIRST_DAY: i64 = -719_162;

pub(crate) const DAY: i64 = 86_400;

const HOUR: i64 = 3_600;

/// The first second of an end, at a moment. An end before 0001-01-01 is that day.
pub fn first_second(end: End, moment: i64) -> i64
    requires end { IsTrue (is_end end) }
    requires moment { IsMoment moment }
    ensures { result ≡ (seconds_of end moment).first }
{
    seconds_of(end, moment).first
}

/// The last second of an end, at a moment.
pub fn last_second(end: End, moment: i64) -> i64
    requires end { IsTrue (is_end end) }
    requires moment { IsMoment moment }
    ensures { result ≡ (seconds_of end moment).last }
{
    seconds_of(end, moment).last
}

/// Says whether some text is this end.
pub fn is_end(end: End) -> bool
    ensures { result ≡ is_end end }
{
    match end {
        End::Second(second) => is_second(second),
        End::Year(year) => is_year(year),
        End::Month(year, month) => is_month(year, month),
        End::Day(year, month, day) => is_date(year, month, day),
        End::Today => true,
        End::Yesterday => true,
        End::Ago(count, _) => count <= 999_999,
    }
}

/// A number of 12 digits, which may be negative.
fn is_second(second: i64) -> bool
    ensures { result ≡ is_end (End.Second second) }
{
    second >= -999_999_999_999 && second <= 999_999_999_999
}

fn is_year(year: u16) -> bool
    ensures { result ≡ is_year year }
{
    year >= 1 && year <= 9999
}

fn is_month(year: u16, month: u8) -> bool
    ensures { result ≡ is_month year month }
{
    is_year(year) && (month >= 1 && month <= 12)
}

fn is_date(year: u16, month: u8, day: u8) -> bool
    ensures { result ≡ is_date year month day }
{
    if !is_month(year, month) {
        return false;
    }
    let last = last_of_month(year, month);
    day >= 1 && day <= last
}

fn seconds_of(end: End, moment: i64) -> Seconds
    requires end { IsTrue (is_end end) }
    requires moment { IsMoment moment }
    ensures { result ≡ seconds_of end moment }
{
    match end {
        End::Second(second) => one_second(second),
        End::Year(year) => days(day_number(year, 1, 1), day_number(year, 12, 31)),
        End::Month(year, month) => days(
            day_number(year, month, 1),
            day_number(year, month, last_of_month(year, month)),
        ),
        End::Day(year, month, day) => one_day(day_number(year, month, day)),
        End::Today => one_day(day_of(moment)),
        End::Yesterday => one_day(day_of(moment) - 1),
        End::Ago(count, unit) => ago(unit, count, moment),
    }
}

fn ago(unit: DateUnit, count: u32, moment: i64) -> Seconds
    requires count { count ≤ 999999 }
    requires moment { IsMoment moment }
    ensures { result ≡ ago unit count moment }
{
    match unit {
        DateUnit::Hours => hours_ago(count, moment),
        DateUnit::Days => days_ago(count, moment),
        DateUnit::Weeks => days_ago(7 * count, moment),
        DateUnit::Months => months_ago(count, moment),
        DateUnit::Years => months_ago(12 * count, moment),
    }
}

fn hours_ago(count: u32, moment: i64) -> Seconds
    requires count { count ≤ 999999 }
    requires moment { IsMoment moment }
    ensures { result ≡ one_hour (hour_of moment -ℤ pos count) }
{
    one_hour(moment.div_euclid(HOUR) - i64::from(count))
}

fn days_ago(count: u32, moment: i64) -> Seconds
    requires count { count ≤ 6999993 }
    requires moment { IsMoment moment }
    ensures { result ≡ one_day (from_first (day_of moment -ℤ pos count)) }
{
    one_day(day_before(count, moment))
}

/// The day n days before the moment's, but none before 0001-01-01.
fn day_before(count: u32, moment: i64) -> i64
    requires count { count ≤ 6999993 }
    requires moment { IsMoment moment }
    ensures value { result ≡ from_first (day_of moment -ℤ pos count) }
    ensures range { IsDayNumber result }
{
    from_first(day_of(moment) - i64::from(count))
}

fn months_ago(count: u32, moment: i64) -> Seconds
    requires count { count ≤ 11999988 }
    requires moment { IsMoment moment }
    ensures { result ≡ one_day (months_before (date_of (day_of moment)) count) }
{
    one_day(months_before(date_of(day_of(moment)), count))
}

/// That day, but none before 0001-01-01.
fn from_first(day: i64) -> i64
    requires { day ≤ℤ last_day }
    ensures value { result ≡ from_first day }
    ensures range { IsDayNumber result }
{
    if day < FIRST_DAY { FIRST_DAY } else { day }
}

fn one_second(second: i64) -> Seconds
    ensures { result ≡ one_second second }
{
    if second < FIRST_DAY * DAY {
        return one_day(FIRST_DAY);
    }
    Seconds {
        first: second,
        last: second,
    }
}

fn one_hour(hour: i64) -> Seconds
    requires low { neg_ℤ (pos 1000000) ≤ℤ hour }
    requires high { hour ≤ℤ pos 100000000 }
    ensures { result ≡ one_hour hour }
{
    Seconds {
        first: hour * HOUR,
        last: hour * HOUR + (HOUR - 1),
    }
}

fn one_day(day: i64) -> Seconds
    requires { IsDayNumber day }
    ensures { result ≡ one_day day }
{
    days(day, day)
}

/// From the first second of one day to the last second of another.
fn days(first: i64, last: i64) -> Seconds
    requires first { IsDayNumber first }
    requires last { IsDayNumber last }
    ensures { result ≡ days first last }
{
    Seconds {
        first: first * DAY,
        last: last * DAY + (DAY - 1),
    }
}

/// The day that holds a moment.
fn day_of(moment: i64) -> i64
    requires { IsMoment moment }
    ensures value { result ≡ day_of moment }
    ensures low { pos 0 ≤ℤ result }
    ensures high { result ≤ℤ pos 2928240 }
{
    moment.div_euclid(DAY)
}
