//! Tests: the program that runs the rows on sessions and their crashes, on the program, on the lines of scripts, on replies,
//! and on the machine of commits and replies. The table is on the standard input; the standard output has a line for each row.
#![tactic(auto)]

mod answers;
mod crash_rows;
mod devices;
mod disks;
mod line_rows;
mod machine_rows;
mod mail_files;
mod reply_rows;
mod row_lines;
mod session_rows;
mod session_run;
mod sessions;
mod step_rows;
mod transcripts;

use answers::Sessions;
use rows::run_program;
use std::io;

fn main(rt: HostRuntime) -> io::Result<()> {
    run_program(&rt, &Sessions { rt: &rt })
}
