//! Lists, whose count comes before them, for `nm_record` and, in order, for `rising_list`.

ghost use Rattle.std.specs.Prelude.{◌≡◌, ◌++◌, ◌<◌, ◌^◌, length, min, OnOk};
ghost use Rattle.std.specs.List.{flat_map, list_all};
ghost use Rattle.nm_base.specs.Limits.{max_count};
ghost use Rattle.nm_codec.specs.Grammar.{list_grammar};
ghost use Rattle.nm_codec.specs.ReadSteps.{GivesUnlessNoMemory, items_at, list_at};
ghost use Rattle.nm_codec.specs.Encoding.{list_bytes};

use crate::{Format, ReadError, Reader, Writer};
use nm_base::{Many, NoMemory};
use std::alloc::Global;
use std::marker::PhantomData;

/// A list: its count in four bytes, and its items.
pub struct ListOf<F> {
    format: PhantomData<F>,
}

impl<F: Format> Format for ListOf<F> {
    type Value = Many<F::Value>;

    ghost grammar = { list_grammar F.grammar };

    ghost asked = { list_all F.asked };

    #[tactic(auto, unfolding(crate::specs::ReadSteps::list_at))]
    fn read(alloc: Global, reader: &mut Reader<'_>) -> Result<Many<F::Value>, ReadError> {
        let count = reader.u32()?;
        read_items::<F>(alloc, count, reader)
    }

    fn len(value: &Many<F::Value>) -> u64 {
        items_len::<F>(value.as_slice()).saturating_add(4)
    }

    fn write(value: &Many<F::Value>, writer: &mut Writer) -> Result<(), NoMemory> {
        writer.put_u32(value.len() as u32)?;
        write_items::<F>(value.as_slice(), writer)
    }
}

/// N items, one after the other.
fn read_items<F: Format>(
    alloc: Global,
    count: u32,
    reader: &mut Reader<'_>,
) -> Result<Many<F::Value>, ReadError>
    ensures { GivesUnlessNoMemory reader.old result reader.new (items_at (F.grammar).read count reader.old.rest) }
{
    let mut items = Many::new(alloc);
    'items: for _ in 0..count {
        let item = F::read(alloc, reader)?;
        items.push(item)?;
    }
    Ok(items)
}

fn write_items<F: Format>(items: &[F::Value], writer: &mut Writer) -> Result<(), NoMemory>
    requires { length (flat_map (F.grammar).bytes items.now) < 2 ^ 32 }
    ensures { OnOk result (writer.new ≡ writer.old ++ flat_map (F.grammar).bytes items.now) }
{
    'items: for item in items {
        F::write(item, writer)?;
    }
    Ok(())
}

fn items_len<F: Format>(items: &[F::Value]) -> u64
    ensures len { result ≡ min (length (flat_map (F.grammar).bytes items.now)) max_count }
    ensures value { list_all (F.grammar).is_value items.now ≡ list_all F.asked items.now }
{
    let mut len = 0u64;
    'items: for item in items {
        len = len.saturating_add(F::len(item));
    }
    len
}
