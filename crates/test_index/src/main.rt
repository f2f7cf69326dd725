//! Tests: the program that runs the rows on the index: threads, journals, crashes of the disk, commits, tags,
//! snapshots, workers. The table is on the standard input, and the standard output has a line for each row.
#![tactic(auto)]

mod answers;
mod commit_lines;
mod commit_rows;
mod crash_rows;
mod disk_rows;
mod disks;
mod index_rows;
mod journal_rows;
mod names;
mod new_rows;
mod room_rows;
mod snapshot_rows;
mod store;
mod tag_rows;
mod thread_rows;

use answers::Index;
use rows::run_program;
use std::io;

fn main(rt: HostRuntime) -> io::Result<()> {
    run_program(&rt, &Index { rt: &rt })
}
