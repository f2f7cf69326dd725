//! What follows from the definitions of dates. No code calls these functions: their clauses are the laws.

ghost use Rattle.std.specs.Prelude.{◌≡◌, ◌↔◌, ◌<◌, ◌≤◌, ◌+◌, ◌*◌, min, ℕ, ℤ, pos, negsuc, ◌+ℤ◌, ◌-ℤ◌, ◌*ℤ◌, ◌<ℤ◌, ◌≤ℤ◌, IsTrue, Some, None, codes};
ghost use Rattle.nm_base.specs.Limits.{min_date};
ghost use Rattle.jiff_core.specs.Calendar.{days_in_month};
ghost use Rattle.nm_dates.specs.Calendar.{IsDayNumber, IsDayOf, date_of, date_text, day_number, is_date, is_month, is_year};
ghost use Rattle.nm_dates.specs.Ends.{end_of};
ghost use Rattle.nm_dates.specs.Seconds.{Holds, IsMoment, IsShownSecond, date_at, is_end, seconds_of};
ghost use Rattle.nm_dates.specs.declared.end.End.{End};
ghost use Rattle.nm_dates.specs.declared.end.End.TheVariants.{Ago, Day, Month, Second, Today, Year, Yesterday};
ghost use Rattle.nm_dates.specs.declared.end.DateUnit.TheVariants.{Days, Hours, Months, Weeks, Years};

/// Each day from 0001-01-01 to 9999-12-31 has its date, and each date is that of its day.
pub fn a_day_has_one_date()
    ensures day { (day : ℤ) → IsDayNumber day → IsDayOf (date_of day) day }
    ensures date { (year month day : ℕ) → IsTrue (is_date year month day) → date_of (day_number year month day) ≡ record { year = year; month = month; day = day } }
{}

/// The date of a second, written out, is read as a day that holds the second.
pub fn a_written_day_is_read()
    ensures read { (second : ℤ) → IsShownSecond second → end_of (date_text (date_at second)) ≡ Some (Day (date_at second).year (date_at second).month (date_at second).day) }
    ensures held { (second moment : ℤ) → IsShownSecond second → Holds (seconds_of (Day (date_at second).year (date_at second).month (date_at second).day) moment) second }
{}

/// The first second of an end is at most its last.
pub fn no_end_is_empty()
    ensures { (end : End) → (moment : ℤ) → IsTrue (is_end end) → (seconds_of end moment).first ≤ℤ (seconds_of end moment).last }
{}

/// A year, a month and a day hold the seconds whose date has their numbers, and no others.
pub fn a_unit_holds_the_seconds_of_its_dates()
    ensures year { (year : ℕ) → (second moment : ℤ) → IsTrue (is_year year) → IsShownSecond second → Holds (seconds_of (Year year) moment) second ↔ ((date_at second).year ≡ year) }
    ensures month { (year month : ℕ) → (second moment : ℤ) → IsTrue (is_month year month) → IsShownSecond second → Holds (seconds_of (Month year month) moment) second ↔ (((date_at second).year ≡ year) × ((date_at second).month ≡ month)) }
    ensures day { (year month day : ℕ) → (second moment : ℤ) → IsTrue (is_date year month day) → IsShownSecond second → Holds (seconds_of (Day year month day) moment) second ↔ (date_at second ≡ record { year = year; month = month; day = day }) }
{}

/// A month begins the second after the month before it ends, and a year likewise; a year begins with its first month.
pub fn a_month_begins_where_the_last_one_ends()
    ensures month { (year month : ℕ) → (moment : ℤ) → IsTrue (is_month year month) → month < 12 → (seconds_of (Month year (month + 1)) moment).first ≡ (seconds_of (Month year month) moment).last +ℤ pos 1 }
    ensures january { (year : ℕ) → (moment : ℤ) → (seconds_of (Month (year + 1) 1) moment).first ≡ (seconds_of (Month year 12) moment).last +ℤ pos 1 }
    ensures year { (year : ℕ) → (moment : ℤ) → (seconds_of (Year (year + 1)) moment).first ≡ (seconds_of (Year year) moment).last +ℤ pos 1 }
    ensures first { (year : ℕ) → (moment : ℤ) → (seconds_of (Year year) moment).first ≡ (seconds_of (Month year 1) moment).first }
{}

/// N days or weeks ago is the day of the second n times 86,400 or 604,800 before the moment; days that would be before
/// 0001-01-01 are that day. N hours ago is the whole hour of the second n times 3,600 before.
pub fn a_day_ago_is_the_day_of_an_earlier_second()
    ensures today { (moment : ℤ) → Holds (seconds_of Today moment) moment × ((seconds_of Today moment).last ≡ (seconds_of Today moment).first +ℤ pos 86399) }
    ensures yesterday { (moment : ℤ) → seconds_of Yesterday moment ≡ seconds_of Today (moment -ℤ pos 86400) }
    ensures days { (n : ℕ) → (moment : ℤ) → min_date ≤ℤ (moment -ℤ pos (86400 * n)) → seconds_of (Ago n Days) moment ≡ seconds_of Today (moment -ℤ pos (86400 * n)) }
    ensures weeks { (n : ℕ) → (moment : ℤ) → min_date ≤ℤ (moment -ℤ pos (604800 * n)) → seconds_of (Ago n Weeks) moment ≡ seconds_of Today (moment -ℤ pos (604800 * n)) }
    ensures early { (n : ℕ) → (moment : ℤ) → (moment -ℤ pos (86400 * n)) <ℤ min_date → seconds_of (Ago n Days) moment ≡ seconds_of (Day 1 1 1) moment }
    ensures hours { (n : ℕ) → (moment : ℤ) → Holds (seconds_of (Ago n Hours) moment) (moment -ℤ pos (3600 * n)) × ((seconds_of (Ago n Hours) moment).last ≡ (seconds_of (Ago n Hours) moment).first +ℤ pos 3599) }
    ensures hour { (n : ℕ) → (moment : ℤ) → (hour : ℤ) × ((seconds_of (Ago n Hours) moment).first +ℤ pos (3600 * n) ≡ hour *ℤ pos 3600) }
{}

/// N months ago is the day of that number n calendar months before, or that month's last day where it has none such; years
/// likewise.
pub fn a_month_ago_is_a_calendar_month_before()
    ensures months { (n year month : ℕ) → (moment : ℤ) → IsShownSecond moment → IsTrue (is_month year month) → year * 12 + month + n ≡ (date_at moment).year * 12 + (date_at moment).month → seconds_of (Ago n Months) moment ≡ seconds_of (Day year month (min (date_at moment).day (days_in_month (pos year) month))) moment }
    ensures years { (n year : ℕ) → (moment : ℤ) → IsShownSecond moment → IsTrue (is_year year) → year + n ≡ (date_at moment).year → seconds_of (Ago n Years) moment ≡ seconds_of (Day year (date_at moment).month (min (date_at moment).day (days_in_month (pos year) (date_at moment).month))) moment }
    ensures early { (n : ℕ) → (moment : ℤ) → IsShownSecond moment → (date_at moment).year * 12 + (date_at moment).month ≤ n + 12 → seconds_of (Ago n Months) moment ≡ seconds_of (Day 1 1 1) moment }
{}

/// 29 February is there in 2024 and 2000, and not in 2023 and 1900; the seconds of a February end with its last day.
pub fn february_has_its_days()
    ensures read { (end_of (codes "2024-02-29") ≡ Some (Day 2024 2 29)) × (end_of (codes "2000-02-29") ≡ Some (Day 2000 2 29)) × (end_of (codes "2023-02-29") ≡ None) × (end_of (codes "1900-02-29") ≡ None) × (end_of (codes "2024-04-31") ≡ None) × (end_of (codes "2024-13") ≡ None) × (end_of (codes "0000") ≡ None) }
    ensures leap { (moment : ℤ) → seconds_of (Month 2024 2) moment ≡ record { first = pos 1706745600; last = pos 1709251199 } }
    ensures century { (moment : ℤ) → seconds_of (Month 1900 2) moment ≡ record { first = negsuc 2206310399; last = negsuc 2203891200 } }
{}

/// `12hours`, `1 Day` and `3_WEEKS` are n units ago; two spaces, seven digits and other units are none.
pub fn a_number_and_a_unit_are_so_many_ago()
    ensures units { (end_of (codes "12hours") ≡ Some (Ago 12 Hours)) × (end_of (codes "1 Day") ≡ Some (Ago 1 Days)) × (end_of (codes "3_WEEKS") ≡ Some (Ago 3 Weeks)) × (end_of (codes "1 month") ≡ Some (Ago 1 Months)) × (end_of (codes "999999 years") ≡ Some (Ago 999999 Years)) }
    ensures others { (end_of (codes "ToDay") ≡ Some Today) × (end_of (codes "yesterday") ≡ Some Yesterday) × (end_of (codes "@-5") ≡ Some (Second (negsuc 4))) × (end_of (codes "@5") ≡ Some (Second (pos 5))) }
    ensures none { (end_of (codes "3  days") ≡ None) × (end_of (codes "1000000 days") ≡ None) × (end_of (codes "days") ≡ None) × (end_of (codes "5 minutes") ≡ None) × (end_of (codes "@") ≡ None) × (end_of (codes "@1234567890123") ≡ None) }
{}
