//! Blocks one after the other, cut where they are full and joined where they are small, for `part` and `room`.

ghost use Rattle.std.specs.Prelude.{◌≡◌, ◌<◌, [], ◌∷◌, ◌++◌, IfOk, OnOk, OnErr};
ghost use Rattle.nm_shared.specs.Runs.{flat, HaveItems};

use crate::run::{Run, copied};
use nm_base::{Copies, NoMemory};
use std::alloc::Global;

/// A run with this many items is cut in two before another goes into it.
pub const MAX_RUN: usize = 64;

/// Two neighbours with this many items together become one, which has room for as many again.
const MAX_JOINED: usize = MAX_RUN / 2;

/// Puts the first run there, with one item.
pub fn put_first<T: Drop>(runs: &mut Vec<Run<T>>, item: T) -> Result<(), NoMemory>
    requires { runs.old.items ≡ [] }
    ensures ok { OnOk result (runs.new.items ≡ (item ∷ []) ∷ []) }
    ensures err { OnErr result (runs.new.items ≡ runs.old.items) }
{
    let alloc = *runs.allocator();
    let mut items = Vec::new(alloc);
    items.push(item)?;
    runs.push(Run::of(items)?)?;
    Ok(())
}

/// Cuts the run at `at`, if it is there and full: the last one so that rising items fill runs.
pub fn cut_run<T: Copies>(runs: &mut Vec<Run<T>>, at: usize) -> Result<(), NoMemory>
    requires { HaveItems runs.old.items }
    ensures items { flat runs.new.items ≡ flat runs.old.items }
    ensures filled { HaveItems runs.new.items }
{
    let alloc = *runs.allocator();
    let Some(run) = runs.get(at) else {
        return Ok(());
    };
    let items = run.as_slice();
    if items.len() < MAX_RUN {
        return Ok(());
    }
    let middle = middle_of(items.len(), at + 1 < runs.len());
    let front = Run::of(copied(alloc, &items[..middle])?)?;
    let back = Run::of(copied(alloc, &items[middle..])?)?;
    runs.insert(at + 1, back)?;
    runs[at] = front;
    Ok(())
}

/// Where a full run of this many items is cut.
fn middle_of(len: usize, has_next: bool) -> usize
    requires { 1 < len }
    ensures low { 0 < result }
    ensures high { result < len }
{
    if has_next { len / 2 } else { len - 1 }
}

/// Joins the run at `at` and the next one, if both are there and small, so that many removals leave no tiny runs.
pub fn join_run<T: Copies>(runs: &mut Vec<Run<T>>, at: usize) -> Result<(), NoMemory>
    requires { HaveItems runs.old.items }
    ensures items { flat runs.new.items ≡ flat runs.old.items }
    ensures filled { HaveItems runs.new.items }
{
    let alloc = *runs.allocator();
    let all = runs.as_slice();
    let (Some(front), Some(back)) = (all.get(at), all.get(at.saturating_add(1))) else {
        return Ok(());
    };
    let (front, back) = (front.as_slice(), back.as_slice());
    if front.len().saturating_add(back.len()) > MAX_JOINED {
        return Ok(());
    }
    let joined = Run::of(joined(alloc, front, back)?)?;
    runs.remove(at + 1);
    runs[at] = joined;
    Ok(())
}

fn joined<T: Copies>(alloc: Global, front: &[T], back: &[T]) -> Result<Vec<T>, NoMemory>
    ensures { IfOk result (λ vec. vec.items ≡ front.now ++ back.now) }
{
    let mut joined = copied(alloc, front)?;
    'items: for item in back {
        joined.push(item.copy()?)?;
    }
    Ok(joined)
}
