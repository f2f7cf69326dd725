//! Days by number, and dates: `seconds` counts with them, and `nm_render` shows a day.

ghost use Rattle.std.specs.Prelude.{◌≡◌, ℕ, ◌<◌, ◌≤◌, ◌*◌, ◌+◌, pos, negsuc, ◌≤ℤ◌, IsTrue};
ghost use Rattle.jiff_core.specs.Calendar.{days_in_month};
ghost use Rattle.jiff_core.specs.Date.{epoch_day};
ghost use Rattle.nm_dates.specs.Calendar.{IsDayNumber, date_of, date_text, day_in, day_number, first_day, is_date, is_month, months_before, two_digits};
ghost use Rattle.nm_dates.specs.Seconds.{IsShownSecond, day_of};

use crate::seconds::{DAY, FIRST_DAY};
use jiff_core::civil::Date;

/// A date by its numbers.
#[derive(Clone, Copy)]
pub(crate) struct Civil {
    pub year: u16,
    pub month: u8,
    pub day: u8,
}

/// The date of a second as it is written, `YYYY-MM-DD`: from 0001-01-01 to 9999-12-31.
pub fn day_text(second: i64) -> [u8; 10]
    requires { IsShownSecond second }
    ensures { result ≡ date_text (date_of (day_of second)) }
{
    let date = date_of(second.div_euclid(DAY));
    let [y1, y2] = two_digits((date.year / 100) as u8);
    let [y3, y4] = two_digits((date.year % 100) as u8);
    let [m1, m2] = two_digits(date.month);
    let [d1, d2] = two_digits(date.day);
    [y1, y2, y3, y4, b'-', m1, m2, b'-', d1, d2]
}

fn two_digits(number: u8) -> [u8; 2]
    requires { number < 100 }
    ensures { result ≡ two_digits number }
{
    [b'0' + number / 10, b'0' + number % 10]
}

/// The number of a date's day; 0 is 1970-01-01.
pub(crate) fn day_number(year: u16, month: u8, day: u8) -> i64
    requires { IsTrue (is_date year month day) }
    ensures value { result ≡ day_number year month day }
    ensures range { IsDayNumber result }
{
    number_of(Date::constrain(year as i16, month, day))
}

fn number_of(date: Date) -> i64
    ensures value { result ≡ epoch_day date }
    ensures range { pos 1 ≤ℤ date.year → IsDayNumber result }
{
    let day = date.to_unix_epoch_day();
    i64::from(day)
}

/// The last day of a month.
pub(crate) fn last_of_month(year: u16, month: u8) -> u8
    requires { IsTrue (is_month year month) }
    ensures value { result ≡ days_in_month (pos year) month }
    ensures date { IsTrue (is_date year month result) }
{
    Date::constrain(year as i16, month, 31).day
}

/// The date of a day.
pub(crate) fn date_of(day: i64) -> Civil
    requires { IsDayNumber day }
    ensures value { result ≡ date_of day }
    ensures date { IsTrue (is_date result.year result.month result.day) }
{
    let date = date_at(day);
    Civil {
        year: date.year.unsigned_abs(),
        month: date.month,
        day: date.day,
    }
}

fn date_at(day: i64) -> Date
    requires { IsDayNumber day }
    ensures { epoch_day result ≡ day }
{
    match Date::from_unix_epoch_day(day) {
        Ok(date) => date,
        Err(_) => unreachable!(),
    }
}

/// The day n months before a date, or the last day of that month where it is shorter; none is before 0001-01-01.
pub(crate) fn months_before(date: Civil, months: u32) -> i64
    requires date { IsTrue (is_date date.year date.month date.day) }
    requires months { months ≤ 11999988 }
    ensures value { result ≡ months_before date months }
    ensures range { IsDayNumber result }
{
    let number = u32::from(date.year) * 12 + u32::from(date.month - 1);
    if number < months + 12 {
        return FIRST_DAY;
    }
    day_in(number - months, date.day)
}

/// The day of that number in a month counted from the year 0, or the last of that month where it is shorter.
fn day_in(months: u32, day: u8) -> i64
    requires low { 12 ≤ months }
    requires high { months < 120000 }
    requires day { 1 ≤ day }
    ensures value { result ≡ day_in months day }
    ensures range { IsDayNumber result }
{
    let year = (months / 12) as i16;
    let month = (months % 12 + 1) as u8;
    number_of(Date::constrain(year, month, day))
}
