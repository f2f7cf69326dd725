//! The seats of the writer and of the readers, and what each does there: `publisher` and `reader` sit in them.

ghost use Rattle.std.specs.Prelude.{◌≡◌, ◌<◌, [], ◌∷◌, None, Some, drop, IfOk, IfSome, IsTrue, length};
ghost use Rattle.std.specs.Arc.{arc_value};
ghost use Rattle.left_right.specs.Sides.{view};
ghost use Rattle.nm_publish.specs.List.{index_at};
ghost use Rattle.nm_publish.specs.Published.{index_of};
ghost use Rattle.nm_publish.specs.Rule.{Follows, KnowsOf};

use crate::block::block_forever;
use crate::list::Token;
use crate::rule::{Known, Notes, Rule, Sees};
use crate::shown::Shown;
use crate::slot::{Next, Slot};
use core::mem;
use left_right::{reader, writer};
use nm_base::NoMemory;
use nm_state::Snapshot;
use std::alloc::Global;
use std::sync::{Arc, Wait};

/// A reader's seat.
pub type ReaderSeat = reader::Reader<Slot, Option<Known>, Rule>;

/// The writer's seat, with both copies of what it shows.
pub type WriterSeat = writer::Writer<Slot, Next, Option<Known>, Rule>;

/// Makes a reader's seat, which knows what the writer's does.
pub fn another_seat(writer: &mut WriterSeat) -> Result<ReaderSeat, NoMemory>
    ensures seat { IfOk result (λ seat. view seat.place ≡ view writer.old.desk.place) }
    ensures shown { writer.new.desk.shown ≡ writer.old.desk.shown }
    ensures known { view writer.new.desk.place ≡ view writer.old.desk.place }
    ensures pending { drop writer.new.behind writer.new.log.items ≡ drop writer.old.behind writer.old.log.items }
{
    let mut seat = writer.factory().reader()?;
    seat.learn::<Notes>(writer.tell::<Notes>());
    Ok(seat)
}

/// The writer's seat over both copies of a first content. It shows the same once more: so its seat knows the list, and there is
/// room for the operations from then on.
#[tactic(auto, using(crate::proofs::RuleLemmas::follows_alike, crate::proofs::RuleLemmas::holds_first))]
pub fn writer_seat<R: Wait>(
    rt: &R,
    alloc: Global,
    first: &Arc<Snapshot, Global>,
    token: &Token,
    readers: u32,
) -> Result<WriterSeat, NoMemory>
    requires begun { 0 < length token.now.log }
    requires index { arc_value first.now ≡ index_at token.now.log }
    ensures pending { IfOk result (λ writer. drop writer.behind writer.log.items ≡ []) }
    ensures shown { IfOk result (λ writer. writer.desk.shown.value.seen ≡ token.now) }
    ensures known { IfOk result (λ writer. view writer.desk.place ≡ Some (record { seen = token.now })) }
{
    let one = slot_of(first, token)?;
    let other = slot_of(first, token)?;
    let next = Next {
        snap: copy_of(first)?,
        seen: token.again(),
    };
    let writer: WriterSeat = writer::Writer::new(alloc, one, other, readers.max(1) as usize)?;
    let (writer, done) = publish(writer, (rt, next));
    if !done {
        writer.take(rt);
        return Err(NoMemory);
    }
    Ok(writer)
}

fn slot_of(snap: &Arc<Snapshot, Global>, token: &Token) -> Result<Slot, NoMemory>
    ensures snap { IfOk result (λ slot. arc_value slot.snap ≡ arc_value snap.now) }
    ensures seen { IfOk result (λ slot. slot.seen ≡ token.now) }
{
    Ok(Slot {
        snap: copy_of(snap)?,
        seen: token.again(),
    })
}

/// Lets readers find `next` from now on, and says whether it did.
fn publish<R: Wait>(writer: WriterSeat, job: (&R, Next)) -> (WriterSeat, bool)
    requires pending { drop writer.behind writer.log.items ≡ [] }
    requires next { Follows writer.desk.shown.value job.1 }
    ensures pending { IsTrue result.1 → drop result.0.behind result.0.log.items ≡ [] }
    ensures shown { IsTrue result.1 → result.0.desk.shown.value.seen ≡ job.entry.1.seen }
    ensures known { IsTrue result.1 → view result.0.desk.place ≡ Some (record { seen = job.entry.1.seen }) }
{
    let mut writer = writer;
    let (rt, next) = job;
    if !put(&mut writer, next) {
        return (writer, false);
    }
    let (writer, done) = writer.publish_as::<Sees, R>(rt);
    (writer, done.is_ok())
}

/// Lets readers find `next` from now on.
pub fn turn<R: Wait>(rt: &R, writer: &mut WriterSeat, next: Next)
    requires pending { drop writer.old.behind writer.old.log.items ≡ [] }
    requires next { Follows writer.old.desk.shown.value next }
    ensures pending { drop writer.new.behind writer.new.log.items ≡ [] }
    ensures shown { writer.new.desk.shown.value.seen ≡ next.seen }
    ensures known { view writer.new.desk.place ≡ Some (record { seen = next.seen }) }
{
    // There is room for the operation, and an `Arc` with another owner; the proofs don't know that.
    if !mem::replace_with(writer, (rt, next), publish) {
        block_forever(rt);
    }
}

/// Makes `next` the one operation that is pending, and says whether it did.
fn put(writer: &mut WriterSeat, next: Next) -> bool
    requires { drop writer.old.behind writer.old.log.items ≡ [] }
    ensures desk { writer.new.desk ≡ writer.old.desk }
    ensures pending { IsTrue result → drop writer.new.behind writer.new.log.items ≡ next ∷ [] }
{
    writer.append(next).is_ok()
}

/// What a reader finds.
#[derive(Drop)]
pub struct Found {
    pub snap: Result<Arc<Snapshot, Global>, NoMemory>,
    pub shown: Shown,
}

/// Looks at what is shown, if the writer is there still. `known` is of the list of which the seat knows a beginning.
pub fn look(seat: ReaderSeat, known: &Shown) -> (ReaderSeat, Option<Found>)
    requires { KnowsOf (view seat.place) known.now.book }
    ensures seat { KnowsOf (view result.0.place) known.now.book }
    ensures book { IfSome result.1 (λ found. found.shown.book ≡ known.now.book) }
    ensures snapshot { IfSome result.1 (λ found. IfOk found.snap (λ snap. arc_value snap ≡ index_of found.shown)) }
{
    match seat.enter_as::<Sees>() {
        Ok(reading) => {
            let slot = reading.get();
            let found = Found {
                snap: copy_of(&slot.snap),
                shown: Shown::new(slot.seen.again(), slot.snap.revision()),
            };
            (reading.leave(), Some(found))
        }
        Err(seat) => (seat, None),
    }
}

fn copy_of(snap: &Arc<Snapshot, Global>) -> Result<Arc<Snapshot, Global>, NoMemory>
    ensures { IfOk result (λ copy. arc_value copy ≡ arc_value snap.now) }
{
    Ok(Arc::try_clone(snap)?)
}
