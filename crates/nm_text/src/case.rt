//! ASCII case: `nm_header`, `nm_mime` and `nm_decode` compare names of fields, types and encodings without it.

ghost use Rattle.std.specs.Prelude.{◌≡◌, IfOk, IsUtf8, map};
ghost use Rattle.std.specs.Char.{to_ascii_lowercase};
ghost use Rattle.nm_text.specs.Case.{same_ignoring_case};

use bstr::ByteSlice;
use nm_base::NoMemory;
use std::alloc::Global;

/// The bytes with the ASCII letters in lower case; text stays text.
pub fn lowercase(alloc: Global, bytes: &[u8]) -> Result<Vec<u8>, NoMemory>
    ensures value { IfOk result (λ lower. lower.items ≡ map to_ascii_lowercase bytes.now) }
    ensures text { IfOk result (λ lower. IsUtf8 bytes.now → IsUtf8 lower.items) }
{
    let lower = ByteSlice::to_ascii_lowercase(&bytes, alloc)?;
    Ok(lower)
}

/// Whether they are the same but for the case of ASCII letters.
pub fn same_ignoring_case(name: &[u8], other: &[u8]) -> bool
    ensures { result ≡ same_ignoring_case name.now other.now }
{
    name.eq_ignore_ascii_case(other)
}
