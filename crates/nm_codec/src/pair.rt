//! Two values, one after the other, for the formats of `nm_record`.

ghost use Rattle.std.specs.Prelude.{◌&&◌};
ghost use Rattle.nm_codec.specs.Grammar.{pair_grammar};

use crate::{Format, ReadError, Reader, Writer};
use nm_base::NoMemory;
use std::alloc::Global;
use std::marker::PhantomData;

/// A value of the one format, and after it one of the other.
pub struct Pair<F, G> {
    formats: PhantomData<(F, G)>,
}

impl<F: Format, G: Format> Format for Pair<F, G> {
    type Value = (F::Value, G::Value);

    ghost grammar = { pair_grammar F.grammar G.grammar };

    ghost asked = { λ pair. F.asked pair.0 && G.asked pair.1 };

    #[tactic(auto, unfolding(crate::specs::ReadSteps::pair_at))]
    fn read(alloc: Global, reader: &mut Reader<'_>) -> Result<(F::Value, G::Value), ReadError> {
        let first = F::read(alloc, reader)?;
        let second = G::read(alloc, reader)?;
        Ok((first, second))
    }

    fn len(value: &(F::Value, G::Value)) -> u64 {
        F::len(&value.0).saturating_add(G::len(&value.1))
    }

    fn write(value: &(F::Value, G::Value), writer: &mut Writer) -> Result<(), NoMemory> {
        F::write(&value.0, writer)?;
        G::write(&value.1, writer)
    }
}
