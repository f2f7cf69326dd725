//! Rows on threads, for `answers`: labels as rows of ids come, and as threads go.

ghost use Rattle.std.specs.Prelude.{◌≡◌, ◌+◌, ◌<◌, ◌≤◌, ◌^◌, length, IsTrue};
ghost use Rattle.nm_threads.specs.Same.{ids_of};

use crate::names::{ids_in, is_item, push_ids};
use nm_base::{Copies, LinkRow, Many, MessageId, NoMemory, Steps, Text};
use nm_threads::{Labels, numbers_rise_by_at_most_one_an_id};
use rows::{Lines, Row, RowError, id_of, named, number_of, words_of};
use std::alloc::Global;
use std::marker::Brand;
use std::sync::ledger::{Blank, Ledger};

/// The number that no next number passes.
const MOST: u64 = 1 << 63;

/// What a command does, or tells.
#[derive(Clone, Copy)]
enum Command {
    Row,
    Copy,
    Live,
    Next,
    Pairs,
    Members,
    Count,
    Drop,
    DropInPlace,
    Name,
    Number,
    Thread,
}

const COMMANDS: [(&[u8], Command); 12] = [
    (b"row", Command::Row),
    (b"copy", Command::Copy),
    (b"live", Command::Live),
    (b"next", Command::Next),
    (b"pairs", Command::Pairs),
    (b"members", Command::Members),
    (b"count", Command::Count),
    (b"drop", Command::Drop),
    (b"drop-in-place", Command::DropInPlace),
    (b"name", Command::Name),
    (b"number", Command::Number),
    (b"thread", Command::Thread),
];

/// Labels, to which commands are done. What finds no memory or no number is passed over, and shows in what is reported
/// later.
#[derive(Drop)]
struct Trial<'a, L: Ledger> {
    alloc: Global,
    labels: &'a mut Labels,
    steps: &'a mut Steps<L>,
}

/// What the commands of the lines `|` tell, each done in its turn to labels that begin without a row.
pub fn threads(alloc: Global, row: &Row<'_>) -> Result<Vec<u8>, RowError> {
    told::<Brand>(alloc, row, Blank::new(1))
}

fn told<L: Ledger>(alloc: Global, row: &Row<'_>, blank: Blank) -> Result<Vec<u8>, RowError>
    requires name { blank.name ≡ L.name }
    requires parts { blank.parts ≡ L.parts }
    requires whole { 0 < L.parts }
{
    let mut steps = Steps::<L>::begin(blank);
    let mut labels = Labels::new(alloc);
    let mut trial = Trial {
        alloc,
        labels: &mut labels,
        steps: &mut steps,
    };
    trial.run_all(row)
}

impl<L: Ledger> Trial<'_, L> {
    fn run_all(&mut self, row: &Row<'_>) -> Result<Vec<u8>, RowError> {
        let mut lines = Lines::new(self.alloc);
        'commands: for line in row.lines.as_slice() {
            if is_item(line) {
                self.run(line.bytes.as_slice(), &mut lines);
            }
        }
        lines.into_bytes()
    }

    /// Runs one command.
    fn run(&mut self, command: &[u8], lines: &mut Lines) {
        match words_of(self.alloc, command) {
            Ok(words) => self.run_words(words.as_slice(), lines),
            Err(_) => lines.line(b"no words"),
        }
    }

    fn run_words(&mut self, words: &[Text], lines: &mut Lines) {
        if let [command, words @ ..] = words {
            match named(&COMMANDS, command.as_bytes()) {
                Ok(command) => self.run_command(command, words, lines),
                Err(_) => lines.line(b"no such command"),
            }
        }
    }

    fn run_command(&mut self, command: Command, words: &[Text], lines: &mut Lines) {
        match command {
            Command::Row => add_row(self.alloc, self.labels, words, self.steps),
            Command::Copy => self.add_to_copy(words),
            Command::Live => self.keep_live(words),
            Command::Next => push_number(lines, Some(self.labels.next())),
            Command::Pairs | Command::Members | Command::Count => {
                self.run_by_number(command, number_in(words), lines);
            }
            _ => self.run_by_id(command, words, lines),
        }
    }

    fn run_by_number(&mut self, command: Command, number: u64, lines: &mut Lines) {
        match command {
            Command::Pairs => self.add_pairs(number),
            Command::Members => push_found(lines, self.labels.members(number, self.steps)),
            _ => push_count(lines, self.labels.members(number, self.steps)),
        }
    }

    fn run_by_id(&mut self, command: Command, words: &[Text], lines: &mut Lines) {
        match first_id(self.alloc, words) {
            Ok(id) => self.run_with_id(command, &id, lines),
            Err(_) => lines.line(b"no id"),
        }
    }

    fn run_with_id(&mut self, command: Command, id: &MessageId, lines: &mut Lines) {
        match command {
            Command::Drop => {
                let _ = self.labels.drop_thread(id);
            }
            Command::DropInPlace => {
                let _ = self.labels.drop_thread_in_place(id);
            }
            Command::Name => push_number(lines, self.labels.name_of(id)),
            Command::Number => push_number(lines, self.labels.number_of(id)),
            _ => push_found(lines, self.labels.thread_of(id, self.steps)),
        }
    }

    /// Adds a row to a copy, which is dropped.
    fn add_to_copy(&mut self, words: &[Text]) {
        if let Ok(mut copy) = self.labels.copy() {
            add_row(self.alloc, &mut copy, words, self.steps);
        }
    }

    /// Lets go all threads without one of these ids.
    fn keep_live(&mut self, words: &[Text]) {
        let ids = ids_in(self.alloc, words);
        let _ = self.labels.drop_dead(&ids);
    }

    /// Adds the rows of n ids alone, and then rows that join threads of the same size two by two.
    fn add_pairs(&mut self, count: u64) {
        'sizes: for power in 0..64u32 {
            self.join_threads((1u64 << power) / 2, count);
        }
    }

    /// Joins each second thread of this size to the one before it; of size 0 each id to itself.
    fn join_threads(&mut self, size: u64, count: u64) {
        let step = size.saturating_mul(2).max(1);
        'ids: for at in 0..count {
            if at % step == 0 && size < count - at {
                self.add_pair(at, at + size);
            }
        }
    }

    /// Adds the row of the id with a number in it, which links to another.
    fn add_pair(&mut self, at: u64, other: u64) {
        let mut line = Lines::new(self.alloc);
        line.push_number(at);
        line.push(b" ");
        line.push_number(other);
        if let Ok(row) = row_of_line(self.alloc, line) {
            add(self.labels, &row, self.steps);
        }
    }
}

fn add_row<L: Ledger>(alloc: Global, labels: &mut Labels, words: &[Text], steps: &mut Steps<L>) {
    if let Ok(row) = row_of(alloc, words) {
        add(labels, &row, steps);
    }
}

/// Adds a row, where there is room for its numbers.
fn add<L: Ledger>(labels: &mut Labels, row: &LinkRow, steps: &mut Steps<L>) {
    numbers_rise_by_at_most_one_an_id();
    if has_room(labels.next(), row) {
        let _ = labels.add_row(row, steps);
    }
}

/// Whether the ids of a row find numbers from this one on.
fn has_room(next: u64, row: &LinkRow) -> bool
    ensures { IsTrue result → next + length (ids_of row.now) ≤ 2 ^ 63 }
{
    let len = row.links.len() as u64;
    len < MOST && next < MOST - len
}

/// The row of the words of a line.
fn row_of_line(alloc: Global, line: Lines) -> Result<LinkRow, RowError> {
    let line = line.into_bytes()?;
    let words = words_of(alloc, line.as_slice())?;
    row_of(alloc, words.as_slice())
}

/// A row: an id, and those that it links to.
fn row_of(alloc: Global, words: &[Text]) -> Result<LinkRow, RowError> {
    let id = first_id(alloc, words)?;
    let links = ids_in(alloc, words.get(1..).unwrap_or(&[]));
    Ok(LinkRow { id, links })
}

fn first_id(alloc: Global, words: &[Text]) -> Result<MessageId, RowError> {
    match words {
        [id, ..] => id_of(alloc, id.as_bytes()),
        [] => Err(RowError::Broken("no id")),
    }
}

/// The number that the first word is, and 0 where it is none.
fn number_in(words: &[Text]) -> u64 {
    match words {
        [number, ..] => number_of(number.as_bytes()).unwrap_or(0),
        [] => 0,
    }
}

fn push_number(lines: &mut Lines, number: Option<u64>) {
    lines.begin();
    match number {
        Some(number) => lines.push_number(number),
        None => lines.push(b"none"),
    }
}

fn push_count(lines: &mut Lines, ids: Result<Many<MessageId>, NoMemory>) {
    match ids {
        Ok(ids) => push_number(lines, Some(ids.len() as u64)),
        Err(NoMemory) => lines.line(b"no memory"),
    }
}

fn push_found(lines: &mut Lines, ids: Result<Many<MessageId>, NoMemory>) {
    match ids {
        Ok(ids) => push_joined(lines, ids.as_slice()),
        Err(NoMemory) => lines.line(b"no memory"),
    }
}

/// A line of the ids with blanks between them.
fn push_joined(lines: &mut Lines, ids: &[MessageId]) {
    match ids {
        [] => lines.line(b"none"),
        [first, others @ ..] => {
            lines.line(first.text().as_bytes());
            push_ids(lines, others);
        }
    }
}
