//! A text that is in a room of fixed size, for `Text`.

ghost use Rattle.std.specs.Prelude.{◌≡◌, ◌≤◌, ◌<◌, [], IsUtf8, length, take};

/// A text of at most `N` bytes, which are in the value itself.
#[derive(Clone, Copy)]
pub(crate) struct ShortText<const N: usize> {
    len: u8,
    bytes: [u8; N],
    ghost fits: { len ≤ N },
    ghost utf8: { ∥ IsUtf8 (take len bytes) ∥₁ },
}

impl<const N: usize> ShortText<N> {
    pub(crate) fn empty() -> ShortText<N>
        ensures { take result.len result.bytes ≡ [] }
    {
        ShortText {
            len: 0,
            bytes: [0; N],
        }
    }

    pub(crate) fn of(s: &str) -> ShortText<N>
        requires fits { length s.now ≤ N }
        requires byte { length s.now < 256 }
        ensures { take result.len result.bytes ≡ s.now }
    {
        let mut bytes = [0; N];
        bytes[..s.len()].copy_from_slice(s.as_bytes());
        ShortText {
            len: s.len() as u8,
            bytes,
        }
    }

    pub(crate) fn as_bytes(&self) -> &[u8]
        ensures { result.now ≡ take self.now.len self.now.bytes }
    {
        &self.bytes[..usize::from(self.len)]
    }

    pub(crate) fn as_str(&self) -> &str
        ensures { result.now ≡ take self.now.len self.now.bytes }
    {
        // The bytes were a text when they were copied.
        unsafe { std::str::from_utf8_unchecked(self.as_bytes()) }
    }
}
