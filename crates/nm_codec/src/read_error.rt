//! Why bytes are not read: `reader` and all formats answer so, and `nm_writer` meets it where it replays.

use nm_base::NoMemory;
use std::alloc::AllocError;
use thiserror::Error;

/// The place of the first byte that is not of the grammar, counted from 0; at the length where the bytes end too soon.
#[derive(Clone, Copy, Debug, Error)]
#[error("bad at {at}")]
pub struct Bad {
    pub at: u64,
}

/// As `Bad`, or out of memory.
#[derive(Clone, Copy, Debug, Error)]
pub enum ReadError {
    #[error("bad at {at}")]
    Bad { at: u64 },
    #[error("no memory")]
    NoMemory,
}

impl From<Bad> for ReadError {
    ghost use Rattle.std.specs.Prelude.{◌≡◌};
    ghost use Rattle.nm_codec.specs.declared.read_error.ReadError.TheVariants.{Bad as Refused};

    ghost from_gives = { λ bad e. e ≡ Refused bad.at };

    fn from(bad: Bad) -> ReadError {
        ReadError::Bad { at: bad.at }
    }
}

impl From<NoMemory> for ReadError {
    ghost use Rattle.std.specs.Prelude.{◌≡◌};
    ghost use Rattle.nm_codec.specs.declared.read_error.ReadError.TheVariants.{NoMemory as OutOfMemory};

    ghost from_gives = { λ _ e. e ≡ OutOfMemory };

    fn from(_: NoMemory) -> ReadError {
        ReadError::NoMemory
    }
}
