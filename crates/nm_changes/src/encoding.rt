//! The record of a commit, whose changes several workers put into bytes: `nm_writer` has it made.

ghost use Rattle.std.specs.Prelude.{◌≡◌, ◌++◌, length, map, take, IfOk, IfSome, OnOk};
ghost use Rattle.nm_record.specs.CommitGrammar.{commit_grammar};
ghost use Rattle.nm_record.specs.Commits.{change_bytes};

use nm_base::{Many, NoMemory};
use nm_commit::{Change, Commit};
use nm_journal::Frame;
use nm_record::{change_bytes, write_commit};
use nm_workers::{Job, OpenGate, map_jobs_beside};
use std::alloc::Global;
use std::sync::Wait;
use std::thread::Threads;

/// A commit of this many bytes is worth threads.
const LARGE_BYTES: u64 = 65_536;

/// This many workers at most.
const MAX_WORKERS: u32 = 16;

/// The job of the workers.
#[derive(Clone, Copy)]
struct EncodeJob {
    alloc: Global,
}

impl Job for EncodeJob {
    type In = Change;

    type Out = Many<u8>;

    ghost use Rattle.std.specs.Prelude.{◌≡◌};
    ghost use Rattle.nm_record.specs.Commits.{change_bytes};

    ghost gives = { λ _ change bytes. bytes ≡ change_bytes change };

    fn run(&self, input: &Change) -> Result<Many<u8>, NoMemory> {
        change_bytes(self.alloc, input)
    }
}

/// The bytes of each change, put together by workers, where there are several and the changes have enough bytes to be worth them.
/// The caller does something else once before it helps: what that returned comes first.
pub fn encode_beside<R: Threads + Wait + Sync, F: FnMut() -> T, T: Drop>(
    rt: &R,
    alloc: Global,
    workers: u32,
    len: u64,
    changes: &Many<Change>,
    beside: &mut F,
) -> (T, Result<Option<Many<Many<u8>>>, NoMemory>)
    requires { F.pre beside.old }
    ensures beside { F.step beside.old result.0 beside.new }
    ensures pieces { IfOk result.1 (λ pieces. IfSome pieces (λ pieces. pieces ≡ map change_bytes changes.now)) }
{
    if workers < 2 || len < LARGE_BYTES {
        return (beside(), Ok(None));
    }
    let job = EncodeJob { alloc };
    let workers = workers.min(MAX_WORKERS);
    let (told, pieces) = map_jobs_beside(rt, alloc, &job, changes, workers, &OpenGate, beside);
    match pieces {
        Ok(pieces) => (told, Ok(Some(pieces))),
        Err(NoMemory) => (told, Err(NoMemory)),
    }
}

/// The bytes of all changes, of which these are those of the first.
pub fn encode_rest(
    alloc: Global,
    changes: &[Change],
    mut pieces: Many<Many<u8>>,
) -> Result<Many<Many<u8>>, NoMemory>
    requires { pieces ≡ map change_bytes (take (length pieces) changes.now) }
    ensures { IfOk result (λ all. all ≡ map change_bytes changes.now) }
{
    encode_more(alloc, &changes[pieces.len()..], &mut pieces)?;
    Ok(pieces)
}

/// The bytes of these changes too, after those of others.
fn encode_more(
    alloc: Global,
    changes: &[Change],
    pieces: &mut Many<Many<u8>>,
) -> Result<(), NoMemory>
    ensures { OnOk result (pieces.new ≡ pieces.old ++ map change_bytes changes.now) }
{
    'changes: for change in changes {
        pieces.push(change_bytes(alloc, change)?)?;
    }
    Ok(())
}

/// The record of a commit that has n bytes, put together of the bytes of its changes, where they are there.
pub fn framed(
    alloc: Global,
    commit: &Commit,
    len: u32,
    pieces: Option<Many<Many<u8>>>,
) -> Result<Frame, NoMemory>
    requires len { len ≡ length (commit_grammar.bytes commit.now) }
    requires pieces { IfSome pieces (λ pieces. pieces ≡ map change_bytes commit.now.changes) }
    ensures { IfOk result (λ frame. frame ≡ commit_grammar.bytes commit.now) }
{
    let Some(pieces) = pieces else {
        return framed_alone(alloc, commit, len);
    };
    let count = (commit.changes.len() as u32).to_be_bytes();
    Frame::of_pieces(alloc, len, &count, pieces.as_slice())
}

/// The same in one piece.
fn framed_alone(alloc: Global, commit: &Commit, len: u32) -> Result<Frame, NoMemory>
    requires { len ≡ length (commit_grammar.bytes commit.now) }
    ensures { IfOk result (λ frame. frame ≡ commit_grammar.bytes commit.now) }
{
    let mut bytes = nm_codec::Writer::new(alloc);
    bytes.put_u32(len)?;
    write_commit(commit, &mut bytes)?;
    bytes.put_u8(0)?;
    Ok(Frame::of_bytes(bytes.finish()))
}
