//! A commit joins the list of what was published, when a `publisher` shows it.

ghost use Rattle.std.specs.Prelude.{◌≡◌, ◌+◌, ◌<◌, ◌^◌, ◌∷◌, ◌++◌, [], IsTrue, length};
ghost use Rattle.std.specs.Arc.{arc_value};
ghost use Rattle.nm_publish.specs.List.{commits_of, head_of};
ghost use Rattle.nm_publish.specs.declared.event.Event.TheVariants as event;

use crate::block::block_forever;
use crate::event::Event;
use crate::list::{Add, Begins, Head, Law, Nothing, Token};
use logbook::{Offer, Seen, Start, Word};
use nm_commit::Commit;
use nm_state::Snapshot;
use std::alloc::Global;
use std::snapshot;
use std::sync::{Arc, Wait};

/// A new list, which begins with the index of this snapshot.
pub fn begin(first: &Arc<Snapshot, Global>) -> (Head, Token)
    ensures list { result.1.log ≡ event.Opens (arc_value first.now) ∷ [] }
    ensures head { result.0 ≡ head_of result.1.book }
{
    let (seen, mut pens) = Seen::open_row::<Arc<Snapshot, Global>, Begins>(
        first,
        Start::alone(),
        1,
    );
    let mut pen = pens.take();
    (Word::tracked(0, &mut pen), seen)
}

/// Adds a commit to a list of n.
pub fn add<R: Wait>(
    rt: &R,
    head: &Head,
    seen: &mut Token,
    count: u64,
    commit: &snapshot::Snapshot<Commit>,
)
    requires head { head.now ≡ head_of seen.old.book }
    requires begun { 0 < length seen.old.log }
    requires count { count ≡ length (commits_of seen.old.log) }
    requires room { count + 1 < 2 ^ 64 }
    ensures book { seen.new.book ≡ seen.old.book }
    ensures list { seen.new.log ≡ seen.old.log ++ event.Adds commit.now.value ∷ [] }
{
    // Nobody else adds to the list; the proofs don't know that.
    if !try_add(head, seen, count, commit) {
        block_forever(rt);
    }
}

/// Adds the commit where the list has as many commits as are expected, and says whether it did.
fn try_add(head: &Head, seen: &mut Token, count: u64, commit: &snapshot::Snapshot<Commit>) -> bool
    requires head { head.now ≡ head_of seen.old.book }
    requires begun { 0 < length seen.old.log }
    requires count { count ≡ length (commits_of seen.old.log) }
    requires room { count + 1 < 2 ^ 64 }
    ensures book { seen.new.book ≡ seen.old.book }
    ensures list { IsTrue result → seen.new.log ≡ seen.old.log ++ event.Adds commit.now.value ∷ [] }
{
    let mut offer: Offer<Event, u64, Law, Nothing> = seen.plain::<
        Nothing,
        snapshot::Snapshot<Commit>,
        Add,
    >(commit);
    let mut pen = seen.no_pen();
    let found = head.compare_exchange::<Add, Nothing>(count, count + 1, seen, &mut offer, &mut pen);
    found == count
}
