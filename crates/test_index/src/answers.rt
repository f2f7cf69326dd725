//! What each kind of row asks is in the modules beside this one: `main` runs a table by it.

use crate::disk_rows::Asked;
use crate::{
    commit_rows, disk_rows, journal_rows, new_rows, room_rows, snapshot_rows, tag_rows, thread_rows,
};
use rows::{Program, Row, RowError, named};
use std::alloc::Global;
use std::sync::Wait;
use std::thread::Threads;

/// What a row is on.
#[derive(Clone, Copy)]
enum Kind {
    Journal,
    Opened,
    Stops,
    Faults,
    Snapshot,
    Room,
    Index,
    New,
    Commits,
    Tags,
    WrittenTags,
    Threads,
}

const KINDS: [(&[u8], Kind); 12] = [
    (b"journal", Kind::Journal),
    (b"opened", Kind::Opened),
    (b"stops", Kind::Stops),
    (b"faults", Kind::Faults),
    (b"snapshot", Kind::Snapshot),
    (b"room", Kind::Room),
    (b"index", Kind::Index),
    (b"new", Kind::New),
    (b"commits", Kind::Commits),
    (b"tags", Kind::Tags),
    (b"written tags", Kind::WrittenTags),
    (b"threads", Kind::Threads),
];

/// The program that runs the rows on the index.
#[derive(Drop)]
pub struct Index<'a, R: Threads + Wait + Sync> {
    pub rt: &'a R,
}

impl<R: Threads + Wait + Sync> Program for Index<'_, R> {
    ghost use Rattle.std.specs.Thread.{IsSync};

    // The workers of a `new` share the runtime.
    ghost ready = { λ _. IsSync R.row };

    fn answer(&self, alloc: Global, row: &Row<'_>) -> Result<Vec<u8>, RowError> {
        match named(&KINDS, row.kind)? {
            Kind::Journal => disk_rows::after_appends(self.rt, alloc, row, Asked::Head),
            Kind::Stops => disk_rows::after_appends(self.rt, alloc, row, Asked::Stops),
            Kind::Faults => disk_rows::after_appends(self.rt, alloc, row, Asked::Faults),
            Kind::Index => disk_rows::after_appends(self.rt, alloc, row, Asked::Index),
            Kind::Opened => journal_rows::opened(alloc, row),
            Kind::Snapshot => snapshot_rows::answered(alloc, row),
            Kind::Room => room_rows::told(alloc, row),
            Kind::New => new_rows::by_workers(self.rt, alloc, row),
            Kind::Commits => commit_rows::commits(alloc, row),
            Kind::Tags => tag_rows::operations(alloc, row),
            Kind::WrittenTags => tag_rows::written(alloc, row),
            Kind::Threads => thread_rows::threads(alloc, row),
        }
    }
}
