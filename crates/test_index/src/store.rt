//! A store whose commits are lines of text, for `snapshot_rows`.

use crate::commit_lines::commit_of;
use nm_commit::Commit;
use nm_state::Snapshot;
use rows::RowError;
use std::alloc::Global;
use std::mem;

/// The snapshot after the last commit, the one before it, and why a commit was not made, if one was not.
#[derive(Drop)]
pub struct Store {
    pub alloc: Global,
    pub now: Snapshot,
    pub before: Snapshot,
    pub fault: Option<RowError>,
}

impl Store {
    /// A store without mail.
    pub fn new(alloc: Global) -> Store {
        Store {
            alloc,
            now: Snapshot::empty(alloc),
            before: Snapshot::empty(alloc),
            fault: None,
        }
    }

    /// Makes the commit of a line, where it fits.
    pub fn commit(&mut self, line: &[u8]) {
        match after_line(self.alloc, &self.now, line) {
            Ok(next) => self.before = mem::replace(&mut self.now, next),
            Err(fault) => self.fault = Some(fault),
        }
    }
}

fn after_line(alloc: Global, snapshot: &Snapshot, line: &[u8]) -> Result<Snapshot, RowError> {
    let commit = commit_of(alloc, line)?;
    after(snapshot, &commit)
}

/// The snapshot after a commit, made as from a record of the disk.
fn after(snapshot: &Snapshot, commit: &Commit) -> Result<Snapshot, RowError> {
    if !snapshot.fits(commit)? {
        return Err(RowError::Broken("does not fit"));
    }
    match snapshot.apply_within_limits(commit) {
        Ok(next) => Ok(next),
        Err(_) => Err(RowError::Broken("a limit is passed")),
    }
}
