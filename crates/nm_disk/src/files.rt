//! The bytes of the three files of a disk, for `mem_disk` and the crash states of `state`.

ghost use Rattle.std.specs.Prelude.{◌≡◌, ◌≤◌, length, OnOk, OnErr};
ghost use Rattle.nm_disk.specs.CrashStates.{bytes_of, overwritten, with_bytes};

use crate::FileNo;
use nm_base::{Copies, Many, NoMemory};
use std::alloc::Global;
use std::mem;

/// The bytes of the three files.
#[derive(Drop)]
pub struct Files {
    pub head: Many<u8>,
    pub bank_a: Many<u8>,
    pub bank_b: Many<u8>,
}

impl Files {
    /// The bytes of one of them.
    pub(crate) fn bytes(&self, file: FileNo) -> &[u8]
        ensures { result.now ≡ bytes_of file self.now }
    {
        match file {
            FileNo::Head => self.head.as_slice(),
            FileNo::BankA => self.bank_a.as_slice(),
            FileNo::BankB => self.bank_b.as_slice(),
        }
    }

    /// Writes over what is there from the place on, and past the end.
    pub(crate) fn overwrite(
        &mut self,
        alloc: Global,
        file: FileNo,
        at: u64,
        piece: &[u8],
    ) -> Result<(), NoMemory>
        ensures ok { OnOk result (self.new ≡ with_bytes self.old file (overwritten (bytes_of file self.old) at piece.now)) }
        ensures err { OnErr result (self.new ≡ self.old) }
    {
        match file {
            FileNo::Head => overwrite(alloc, &mut self.head, at, piece),
            FileNo::BankA => overwrite(alloc, &mut self.bank_a, at, piece),
            FileNo::BankB => overwrite(alloc, &mut self.bank_b, at, piece),
        }
    }
}

impl Copies for Files {
    fn copy(&self) -> Result<Files, NoMemory> {
        let head = self.head.copy()?;
        let bank_a = self.bank_a.copy()?;
        let bank_b = self.bank_b.copy()?;
        Ok(Files {
            head,
            bank_a,
            bank_b,
        })
    }
}

fn overwrite(alloc: Global, bytes: &mut Many<u8>, at: u64, piece: &[u8]) -> Result<(), NoMemory>
    ensures ok { OnOk result (bytes.new ≡ overwritten bytes.old at piece.now) }
    ensures err { OnErr result (bytes.new ≡ bytes.old) }
{
    if at > bytes.len() as u64 {
        return bytes.extend_from_slice(piece);
    }
    overwrite_within(alloc, bytes, at as usize, piece)
}

fn overwrite_within(
    alloc: Global,
    bytes: &mut Many<u8>,
    at: usize,
    piece: &[u8],
) -> Result<(), NoMemory>
    requires { at ≤ length bytes.old }
    ensures ok { OnOk result (bytes.new ≡ overwritten bytes.old at piece.now) }
    ensures err { OnErr result (bytes.new ≡ bytes.old) }
{
    let within = piece.len().min(bytes.len() - at);
    // What is past the end comes first: it alone may run out of memory.
    bytes.extend_from_slice(&piece[within..])?;
    let mut vec = mem::replace(bytes, Many::new(alloc)).into_vec();
    vec[at..at + within].copy_from_slice(&piece[..within]);
    *bytes = Many::from_vec(vec);
    Ok(())
}
