//! The model: the ends of date ranges, read from text, and the seconds that they represent (UTC, the Gregorian
//! calendar).
#![tactic(auto)]

mod days;
mod end;
mod end_parser;
mod laws;
mod numbers;
mod seconds;

pub use days::day_text;
pub use end::{BadDate, DateUnit, End};
pub use end_parser::read_end;
pub use laws::{
    a_day_ago_is_the_day_of_an_earlier_second, a_day_has_one_date,
    a_month_ago_is_a_calendar_month_before, a_month_begins_where_the_last_one_ends,
    a_number_and_a_unit_are_so_many_ago, a_unit_holds_the_seconds_of_its_dates,
    a_written_day_is_read, february_has_its_days, no_end_is_empty,
};
pub use seconds::{first_second, is_end, last_second};
