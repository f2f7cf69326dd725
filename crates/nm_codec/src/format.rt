//! A format: how values of one type are encoded in bytes. `nm_record` puts the format of the index together from those
//! of texts, pairs and lists.

ghost use Rattle.std.specs.Prelude.{◌≡◌, ◌<◌, ◌^◌, ◌++◌, length, min, Bool, OnOk};
ghost use Rattle.nm_base.specs.Limits.{max_count};
ghost use Rattle.nm_codec.specs.Grammar.{Grammar};
ghost use Rattle.nm_codec.specs.ReadSteps.{GivesUnlessNoMemory};

use crate::{ReadError, Reader, Writer};
use nm_base::NoMemory;
use std::alloc::Global;

/// How values of one type are encoded in bytes: what a grammar says, as code.
pub trait Format {
    type Value: Drop;

    ghost grammar: { Grammar Self.Value };

    /// What a value must pass beside that which its type promises, to be one of the grammar.
    ghost asked: { Self.Value → Bool };

    /// Takes a value from the front of the bytes that are left.
    fn read(alloc: Global, reader: &mut Reader<'_>) -> Result<Self::Value, ReadError>
        ensures { GivesUnlessNoMemory reader.old result reader.new (grammar.read reader.old.rest) };

    /// How many bytes a value has, up to 2^64 - 1. It looks at every part of the value and takes no memory.
    fn len(value: &Self::Value) -> u64
        ensures len { result ≡ min (length (grammar.bytes value.now)) max_count }
        ensures value { grammar.is_value value.now ≡ asked value.now };

    /// Adds the bytes of a value, which are fewer than 2 ^ 32.
    fn write(value: &Self::Value, writer: &mut Writer) -> Result<(), NoMemory>
        requires { length (grammar.bytes value.now) < 2 ^ 32 }
        ensures { OnOk result (writer.new ≡ writer.old ++ grammar.bytes value.now) };
}
