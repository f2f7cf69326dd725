//! Tests: the program that runs the rows on what no contract tells of the system: real folders of mail, real disks,
//! real files, and streams that are interrupted or fail. The table is on the standard input, and the standard output has a
//! line for each row.
#![tactic(auto)]

mod answers;
mod calls;
mod disk_rows;
mod folder_rows;
mod real_folder;
mod script;
mod stream_rows;

use answers::Outside;
use rows::run_program;
use std::io;

fn main(rt: HostRuntime) -> io::Result<()> {
    run_program(&rt, &Outside { rt: &rt })
}
