//! Words that stay in the bytes of their record: a form of `WordList`.

ghost use Rattle.std.specs.Int.{from_be_bytes, w32};
ghost use Rattle.std.specs.Prelude.{◌≡◌, ◌≤◌, ◌<◌, ◌+◌, ◌*◌, MatchOption, drop, length, true};
ghost use Rattle.std.specs.List.{list_all};
ghost use Rattle.nm_base.specs.LentWords.{AreLent, lent_bytes, length_at, range, words_at};
ghost use Rattle.nm_base.specs.WordList.{is_kept, packed};

use crate::SharedBytes;
use crate::word_list::Words;
use std::marker::Model;

/// Words in a range of the bytes of a record, each after its length in four bytes.
#[derive(Clone, Drop)]
pub(crate) struct LentWords {
    bytes: SharedBytes,
    at: usize,
    len: usize,
    count: usize,
}

impl Model for LentWords {
    ghost use Rattle.std.specs.Prelude.{List, ℕ};
    ghost use Rattle.nm_base.specs.LentWords.{AreLent, range, words_at};

    ghost Value = { List (List ℕ) };

    ghost view = { λ lent. words_at lent.count (range lent.at lent.len lent.bytes) };

    ghost invariant = { λ lent. AreLent lent.count (range lent.at lent.len lent.bytes) (words_at lent.count (range lent.at lent.len lent.bytes)) };
}

impl LentWords {
    pub(crate) fn of(bytes: SharedBytes, at: usize, len: usize, count: usize) -> LentWords
        requires { AreLent count (range at len bytes) (words_at count (range at len bytes)) }
        ensures { result ≡ words_at count (range at len bytes) }
    {
        LentWords {
            bytes,
            at,
            len,
            count,
        }
    }

    pub(crate) fn len(&self) -> usize
        ensures { result ≡ length self.now }
    {
        self.count
    }

    /// How many bytes the words have, each with one more.
    pub(crate) fn bytes_len(&self) -> usize
        ensures len { result ≡ length (packed self.now) }
        ensures kept { list_all is_kept self.now ≡ true }
    {
        self.bytes().len() - 3 * self.count
    }

    /// The bytes of the words, each after its length.
    pub(crate) fn bytes(&self) -> &[u8]
        ensures bytes { result.now ≡ lent_bytes self.now }
        ensures kept { list_all is_kept self.now ≡ true }
    {
        let bytes = self.bytes.as_slice();
        let (_, rest) = bytes.split_at(self.at.min(bytes.len()));
        let (range, _) = rest.split_at(self.len.min(rest.len()));
        range
    }

    pub(crate) fn words(&self) -> Words<'_>
        ensures words { result ≡ self.now }
        ensures kept { list_all is_kept self.now ≡ true }
    {
        Words::lent(self.count, self.bytes())
    }
}

/// The length in the first four bytes, and the bytes after it; nothing where there are fewer than four.
pub fn split_length<'a>(bytes: &'a [u8]) -> Option<(usize, &'a [u8])>
    ensures { MatchOption result (length bytes.now < 4) (λ parts. (4 ≤ length bytes.now) × (parts.0 ≡ length_at bytes.now) × (parts.1.now ≡ drop 4 bytes.now)) }
{
    if bytes.len() < 4 {
        return None;
    }
    let (front, rest) = bytes.split_at(4);
    Some((length_of(front) as usize, rest))
}

fn length_of(front: &[u8]) -> u32
    requires { length front.now ≡ 4 }
    ensures { result ≡ from_be_bytes w32 front.now }
{
    u32::from_be_bytes([front[0], front[1], front[2], front[3]])
}
