//! Tests: the program that runs the rows on queries and dates, on what queries find, on names, on commands and
//! scripts, and on replies. The table is on the standard input, and the standard output has a line for each row.
#![tactic(auto)]

mod answers;
mod change_rows;
mod command_rows;
mod date_rows;
mod drill_rows;
mod found_rows;
mod index;
mod name_rows;
mod query_rows;
mod reply_rows;
mod request_lines;
mod script_rows;
mod show_rows;
mod values;

use answers::Asking;
use rows::run_program;
use std::io;

fn main(rt: HostRuntime) -> io::Result<()> {
    run_program(&rt, &Asking)
}
