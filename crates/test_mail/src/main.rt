//! Tests: the program that runs the rows on reading one mail. The table is on the standard input, and the standard output
//! has a line for each row.
#![tactic(auto)]

mod answers;
mod header_rows;
mod mail_rows;
mod part_rows;
mod question;
mod shown;
mod text_rows;
mod value_rows;

use answers::Reading;
use rows::run_program;
use std::io;

fn main(rt: HostRuntime) -> io::Result<()> {
    run_program(&rt, &Reading)
}
