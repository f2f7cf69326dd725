//! What each kind of row asks is in the modules beside this one: `main` runs a table by it.

use crate::{crash_rows, line_rows, machine_rows, reply_rows, session_rows};
use rows::{Program, Row, RowError, named};
use std::alloc::Global;
use std::sync::Wait;
use std::thread::Threads;

/// The program that runs the rows on sessions.
#[derive(Drop)]
pub struct Sessions<'a, R: Threads + Wait + Sync> {
    pub rt: &'a R,
}

#[derive(Clone, Copy)]
enum Kind {
    Sessions,
    Stops,
    Lines,
    Reply,
    Machine,
}

const KINDS: [(&[u8], Kind); 6] = [
    (b"session", Kind::Sessions),
    (b"program", Kind::Sessions),
    (b"stops", Kind::Stops),
    (b"lines", Kind::Lines),
    (b"reply", Kind::Reply),
    (b"machine", Kind::Machine),
];

impl<R: Threads + Wait + Sync> Program for Sessions<'_, R> {
    ghost use Rattle.std.specs.Thread.{IsSync};

    // The workers of a `new` share the runtime.
    ghost ready = { λ _. IsSync R.row };

    fn answer(&self, alloc: Global, row: &Row<'_>) -> Result<Vec<u8>, RowError> {
        match named(&KINDS, row.kind)? {
            Kind::Sessions => session_rows::answer(self.rt, alloc, row),
            Kind::Stops => crash_rows::answer(self.rt, alloc, row),
            Kind::Lines => line_rows::answer(alloc, row),
            Kind::Reply => reply_rows::answer(alloc, row),
            Kind::Machine => machine_rows::answer(alloc, row),
        }
    }
}

/// What was made of values, where all of these were read.
pub fn if_read<T: Drop>(read: Result<(), RowError>, made: T) -> Result<T, RowError> {
    match read {
        Ok(()) => Ok(made),
        Err(error) => Err(error),
    }
}
