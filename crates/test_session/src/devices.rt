//! The mail folder and the gate of a session, for `sessions`.

ghost use Rattle.std.specs.Prelude.{◌≢◌, ◌<◌, length};

use crate::row_lines::line_of;
use nm_base::Many;
use nm_maildir::{ShiftTree, StillTree};
use nm_workers::MeetGate;
use rows::{RowError, RowLine, cut, number_of};

/// For how many turns a seat waits for the other.
const MANY_TURNS: u64 = 100_000_000;

/// A mail folder that the program opens, or the one of a call, which another program may change.
#[derive(Drop)]
pub enum Folder {
    Opened(StillTree),
    Shifting(ShiftTree),
}

/// A folder of which each call finds the next tree; the last one stays.
pub fn folder_of(is_program: bool, trees: Many<StillTree>) -> Result<Folder, RowError> {
    if is_program {
        opened(trees)
    } else {
        shifting(trees)
    }
}

fn opened(trees: Many<StillTree>) -> Result<Folder, RowError> {
    let mut trees = trees;
    match trees.pop() {
        Some(tree) => Ok(Folder::Opened(tree)),
        None => Err(RowError::Broken("no mail folder")),
    }
}

fn shifting(trees: Many<StillTree>) -> Result<Folder, RowError> {
    if trees.is_empty() {
        Err(RowError::Broken("no mail folder"))
    } else {
        Ok(Folder::Shifting(ShiftTree::new(trees)))
    }
}

/// The gate of the line `meets A B`, at which these two seats meet, where the session has one.
pub fn gate_of(lines: &[RowLine<'_>]) -> Result<MeetGate, RowError> {
    match line_of(lines, b"meets") {
        Some(seats) => meet_gate(seats),
        None => Ok(open_gate()),
    }
}

/// A gate that holds nobody: no lane has these seats.
pub fn open_gate() -> MeetGate {
    MeetGate::new(98, 99, 0)
}

fn meet_gate(seats: &[u8]) -> Result<MeetGate, RowError> {
    let (first, second) = cut(seats, b' ');
    let first = seat(first)?;
    let second = seat(second)?;
    if first == second {
        return Err(RowError::Broken("a seat that meets itself"));
    }
    Ok(MeetGate::new(first, second, MANY_TURNS))
}

fn seat(bytes: &[u8]) -> Result<u32, RowError> {
    match u32::try_from(number_of(bytes)?) {
        Ok(seat) => Ok(seat),
        Err(_) => Err(RowError::Broken("no seat has that number")),
    }
}
