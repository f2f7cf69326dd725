//! Tests: the program that runs the rows on blocks of hits, on segments and on tiers. The table is on the standard input, and
//! the standard output has a line for each row.
#![tactic(auto)]

mod answers;
mod block_rows;
mod doc_order;
mod docs;
mod hit_lines;
mod hit_order;
mod segment_rows;
mod tier_rows;

use answers::Searching;
use rows::run_program;
use std::io;

fn main(rt: HostRuntime) -> io::Result<()> {
    run_program(&rt, &Searching)
}
