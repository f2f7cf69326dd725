//! Lists that rise strictly, whose count comes before them: `nm_record` writes sets of tags so.

ghost use Rattle.std.specs.Prelude.{◌≡◌, ◌&&◌, ◌++◌, ◌-◌, None, length, slice_get};
ghost use Rattle.std.specs.List.{list_all};
ghost use Rattle.std.specs.Option.{option_copied};
ghost use Rattle.nm_codec.specs.Grammar.{rising_grammar};
ghost use Rattle.nm_codec.specs.ReadSteps.{GivesUnlessNoMemory, follows, is_below, is_rising, last_of, rising_items_at, tested_at};

use crate::{Format, ListOf, ReadError, Reader, Writer};
use nm_base::{Many, NoMemory};
use std::alloc::Global;
use std::marker::PhantomData;

/// A list whose items rise strictly: its count in four bytes, and its items.
pub struct RisingOf<F> {
    format: PhantomData<F>,
}

impl<F: Format> Format for RisingOf<F>
where
    F::Value: Ord,
{
    type Value = Many<F::Value>;

    ghost grammar = { rising_grammar (is_below F.Value.cmp) F.grammar };

    ghost asked = { λ items. list_all F.asked items && is_rising (is_below F.Value.cmp) None items };

    #[tactic(auto, unfolding(crate::specs::ReadSteps::rising_at))]
    fn read(alloc: Global, reader: &mut Reader<'_>) -> Result<Many<F::Value>, ReadError> {
        let count = reader.u32()?;
        read_items::<F>(alloc, count, reader)
    }

    fn len(value: &Many<F::Value>) -> u64 {
        <ListOf<F> as Format>::len(value)
    }

    fn write(value: &Many<F::Value>, writer: &mut Writer) -> Result<(), NoMemory> {
        <ListOf<F> as Format>::write(value, writer)
    }
}

/// N items, each above the one before.
fn read_items<F: Format>(
    alloc: Global,
    count: u32,
    reader: &mut Reader<'_>,
) -> Result<Many<F::Value>, ReadError>
where
    F::Value: Ord,
    ensures { GivesUnlessNoMemory reader.old result reader.new (rising_items_at (is_below F.Value.cmp) F.grammar.read None count reader.old.rest) }
{
    let mut items: Many<F::Value> = Many::new(alloc);
    'items: for _ in 0..count {
        let item = read_next::<F>(alloc, items.as_slice(), reader)?;
        items.push(item)?;
    }
    Ok(items)
}

/// The next item, which is above the last of those before it.
#[tactic(auto, unfolding(crate::specs::ReadSteps::tested_at))]
fn read_next<F: Format>(
    alloc: Global,
    before: &[F::Value],
    reader: &mut Reader<'_>,
) -> Result<F::Value, ReadError>
where
    F::Value: Ord,
    ensures { GivesUnlessNoMemory reader.old result reader.new (tested_at (follows (is_below F.Value.cmp) (last_of before.now)) F.grammar.read reader.old.rest) }
{
    let at = reader.at();
    let item = F::read(alloc, reader)?;
    if follows(before, &item) {
        return Ok(item);
    }
    Err(ReadError::Bad { at })
}

fn follows<T: Ord>(before: &[T], item: &T) -> bool
    ensures { result ≡ follows (is_below T.cmp) (last_of before.now) item.now }
{
    match before.last() {
        None => true,
        Some(last) => last.cmp(item).is_lt(),
    }
}
