//! A block that is being written, before its bytes are copied to where they stay: `block` fills it.

ghost use Rattle.std.specs.Prelude.{◌≡◌, ◌++◌, ◌∷◌, [], ◌<◌, length};

use std::marker::Model;

/// The most bytes that a block has: 16 a hit, for 128 hits, and one for the count.
const MAX_BYTES: usize = 2049;

/// The bytes so far, at most `MAX_BYTES`.
#[derive(Drop)]
pub struct Draft {
    bytes: [u8; MAX_BYTES],
    len: usize,
}

impl Model for Draft {
    ghost use Rattle.std.specs.Prelude.{ℕ, ◌≤◌, List, take};
    ghost use Rattle.std.specs.Coded.{coded_list, coded_ℕ};

    ghost Value = { List ℕ };

    ghost coded = { coded_list coded_ℕ };

    ghost view = { λ d. take d.len d.bytes };

    ghost invariant = { λ d. d.len ≤ 2049 };
}

impl Draft {
    pub fn new() -> Draft
        ensures { result ≡ [] }
    {
        Draft {
            bytes: [0; MAX_BYTES],
            len: 0,
        }
    }

    pub fn push(&mut self, byte: u8)
        requires { length self.old < 2049 }
        ensures { self.new ≡ self.old ++ byte ∷ [] }
    {
        self.bytes[self.len] = byte;
        self.len += 1;
    }

    pub fn as_slice(&self) -> &[u8]
        ensures { result.now ≡ self.now }
    {
        &self.bytes[..self.len]
    }
}
