//! Rows on the machine of commits and replies, for `answers`: which steps it takes, and which it refuses.

use crate::answers::if_read;
use crate::step_rows::step;
use nm_base::Copies;
use nm_core::{Core, CoreError};
use nm_model_machine::Step;
use nm_state::Snapshot;
use rows::{Lines, Row, RowError};
use std::alloc::Global;

/// The moment of every step.
const MOMENT: i64 = 1_700_000_000;

/// What the machine says to each step `|`.
pub fn answer(alloc: Global, row: &Row<'_>) -> Result<Vec<u8>, RowError> {
    row.has_only(&[b"lanes", b"|", b"="])?;
    let mut core = core(alloc, row)?;
    let mut answers = Lines::new(alloc);
    let ran = run_steps(alloc, &mut core, &mut answers, row);
    if_read(ran, answers)?.into_bytes()
}

/// A machine with the lanes of the row, or with one.
fn core(alloc: Global, row: &Row<'_>) -> Result<Core, RowError> {
    let lanes = row.number(b"lanes", 1)?;
    if lanes < 1 || lanes > 16 {
        return Err(RowError::Broken("there are 1 to 16 lanes"));
    }
    Ok(Core::new(alloc, Snapshot::empty(alloc), lanes as u32)?)
}

fn run_steps(
    alloc: Global,
    core: &mut Core,
    answers: &mut Lines,
    row: &Row<'_>,
) -> Result<(), RowError> {
    'lines: for line in row.lines.as_slice() {
        if line.mark == b"|".as_slice() {
            answers.line(run_step(alloc, core, line.bytes.as_slice())?);
        }
    }
    Ok(())
}

/// Takes a copy of the step, so that copies are tried too.
fn run_step(alloc: Global, core: &mut Core, line: &[u8]) -> Result<&'static [u8], RowError> {
    let step = step(alloc, line)?;
    let copied = step.copy()?;
    Ok(answer_to(core, &copied))
}

fn answer_to(core: &mut Core, step: &Step) -> &'static [u8] {
    match core.step(step, MOMENT) {
        Ok(()) => b"ok",
        Err(CoreError::NotNow) => b"refused",
        Err(CoreError::NoMemory) => b"no memory",
    }
}
