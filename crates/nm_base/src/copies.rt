//! Copies that may find no memory: every value of a mail and of a commit has one, and `run` of `nm_shared` copies a block so.

ghost use Rattle.std.specs.Prelude.{◌≡◌, IfOk, take};

use crate::NoMemory;

/// A value that can be copied; the copy equals its source.
pub trait Copies: Drop {
    fn copy(&self) -> Result<Self, NoMemory>
        ensures { IfOk result (λ copied. copied ≡ self.now) };
}

impl Copies for u8 {
    fn copy(&self) -> Result<u8, NoMemory> {
        Ok(*self)
    }
}

impl Copies for u64 {
    fn copy(&self) -> Result<u64, NoMemory> {
        Ok(*self)
    }
}

impl Copies for u32 {
    fn copy(&self) -> Result<u32, NoMemory> {
        Ok(*self)
    }
}

impl Copies for i64 {
    fn copy(&self) -> Result<i64, NoMemory> {
        Ok(*self)
    }
}

impl Copies for bool {
    fn copy(&self) -> Result<bool, NoMemory> {
        Ok(*self)
    }
}

impl<A: Copies, B: Copies> Copies for (A, B) {
    fn copy(&self) -> Result<(A, B), NoMemory> {
        let first = self.0.copy()?;
        let second = self.1.copy()?;
        Ok((first, second))
    }
}

impl<T: Copies> Copies for Option<T> {
    fn copy(&self) -> Result<Option<T>, NoMemory> {
        match self {
            None => Ok(None),
            Some(value) => {
                let copied = value.copy()?;
                Ok(Some(copied))
            }
        }
    }
}
