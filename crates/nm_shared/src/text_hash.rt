//! The hashes of texts, by which `hashed_map` finds them.

ghost use Rattle.std.specs.Prelude.{◌≡◌};
ghost use Rattle.nm_shared.specs.TextHash.{next_hash, text_from, text_hash};

use crate::Hashed;
use nm_base::MessageId;

/// The prime of the hash FNV-1a at 64 bits.
const PRIME: u64 = 1_099_511_628_211;

impl Hashed for MessageId {
    ghost hash = { text_hash };

    fn hash_code(&self) -> u64 {
        text_hash(self.text().as_bytes())
    }

    ghost same = { text_from };
}

fn text_hash(bytes: &[u8]) -> u64
    ensures { result ≡ text_hash bytes.now }
{
    let mut hash = 0;
    'bytes: for byte in bytes {
        hash = next_hash(hash, *byte);
    }
    hash
}

fn next_hash(hash: u64, byte: u8) -> u64
    ensures { result ≡ next_hash hash byte }
{
    hash.wrapping_mul(PRIME).wrapping_add(u64::from(byte))
}
