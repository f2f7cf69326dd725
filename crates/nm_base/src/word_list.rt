//! The words of a text, in one block of bytes; `nm_words` makes them, the index keeps them, and queries look through them.

ghost use Rattle.std.specs.Prelude.{ℕ, ◌≡◌, ◌≢◌, ◌-◌, ◌↔◌, ◌<◌, ◌+◌, ◌*◌, [], ◌∷◌, ◌++◌, IsTrue, IfOk, MatchOption, OnOk, OnErr, length, min, true};
ghost use Rattle.std.specs.List.{flat_map, list_all};
ghost use Rattle.nm_base.specs.Limits.{max_count};
ghost use Rattle.nm_base.specs.Word.{is_word};
ghost use Rattle.nm_base.specs.LentWords.{AreLent, range, words_at};
ghost use Rattle.nm_base.specs.WordList.{is_kept, packed, unpacked};
ghost use Rattle.nm_base.specs.WordRow.{words_of, words_of_row};

use crate::lent_words::{LentWords, split_length};
use crate::{Copies, NoMemory, SharedBytes};
use std::alloc::{AllocError, Global};
use std::marker::Model;
use std::mem::size_of;

/// The words of a text in their order, each of 1 to 200 bytes and UTF-8. A word takes its bytes and one more. A
/// mail may have many texts without words, so the list of none is small and takes no block.
#[derive(Drop)]
pub struct WordList {
    alloc: Global,
    row: Option<Box<Row>>,
}

/// A mail may have a text without words for each 4 of its bytes; its list takes 4 bytes of memory for each of them.
const _: () = prove!(size_of::<WordList>() <= 16);

/// The words are the list's own, or they are where a record has them.
#[derive(Drop)]
pub(crate) enum Row {
    Own(WordRow),
    Lent(LentWords),
}

/// One word or more.
#[derive(Clone, Drop)]
pub(crate) struct WordRow {
    count: usize,
    bytes: Vec<u8>,
}

/// The words of a list from some place on, seen as those.
#[derive(Drop)]
pub struct Words<'a> {
    is_lent: bool,
    count: usize,
    bytes: &'a [u8],
}

impl Model for WordList {
    ghost use Rattle.std.specs.Prelude.{List, ℕ};
    ghost use Rattle.nm_base.specs.WordRow.{words_of_row};

    ghost Value = { List (List ℕ) };

    ghost view = { λ list. words_of_row list.row };
}

impl Model for WordRow {
    ghost use Rattle.std.specs.Prelude.{List, ℕ};
    ghost use Rattle.nm_base.specs.WordList.{IsPacked, unpacked};

    ghost Value = { List (List ℕ) };

    ghost view = { λ row. unpacked row.count row.bytes.items };

    ghost invariant = { λ row. IsPacked row.count row.bytes.items (unpacked row.count row.bytes.items) };
}

impl<'a> Model for Words<'a> {
    ghost use Rattle.std.specs.Prelude.{List, ℕ};
    ghost use Rattle.nm_base.specs.WordRow.{words_left};

    ghost Value = { List (List ℕ) };

    ghost view = { λ words. words_left words.is_lent words.count words.bytes.now };
}

impl WordList {
    /// No words, which take no memory.
    pub fn new(alloc: Global) -> WordList
        ensures { result ≡ [] }
    {
        WordList { alloc, row: None }
    }

    /// The words in a range of the bytes of a record, each after its length in four bytes: none is copied.
    pub fn lent(
        alloc: Global,
        bytes: SharedBytes,
        at: usize,
        len: usize,
        count: usize,
    ) -> Result<WordList, NoMemory>
        requires { AreLent count (range at len bytes) (words_at count (range at len bytes)) }
        ensures { IfOk result (λ list. list ≡ words_at count (range at len bytes)) }
    {
        let row = Row::Lent(LentWords::of(bytes, at, len, count));
        Ok(WordList {
            alloc,
            row: Some(Box::new(alloc, row)?),
        })
    }

    pub fn len(&self) -> usize
        ensures { result ≡ length self.now }
    {
        match &self.row {
            None => 0,
            Some(row) => row.len(),
        }
    }

    pub fn is_empty(&self) -> bool
        ensures { IsTrue result ↔ (self.now ≡ []) }
    {
        self.len() == 0
    }

    /// How many bytes the words have, each with one more.
    pub fn bytes_len(&self) -> usize
        ensures len { result ≡ length (packed self.now) }
        ensures kept { list_all is_kept self.now ≡ true }
    {
        match &self.row {
            None => 0,
            Some(row) => row.bytes_len(),
        }
    }

    /// All words from the first on.
    pub fn words(&self) -> Words<'_>
        ensures { result ≡ self.now }
    {
        match &self.row {
            None => Words {
                is_lent: false,
                count: 0,
                bytes: &[],
            },
            Some(row) => row.words(),
        }
    }

    /// Adds a word at the end. Where the words are in a record, they are copied first.
    pub fn push(&mut self, word: &str) -> Result<(), NoMemory>
        requires { IsTrue (is_word word.now) }
        ensures ok { OnOk result (self.new ≡ self.old ++ word.now ∷ []) }
        ensures err { OnErr result (self.new ≡ self.old) }
    {
        if let Some(row) = &mut self.row {
            return row.push(self.alloc, word);
        }
        let mut row = WordRow::new(self.alloc);
        row.push(word)?;
        self.row = Some(Box::new(self.alloc, Row::Own(row))?);
        Ok(())
    }

    /// Gives back the memory that no word fills.
    pub fn shrink_to_fit(&mut self)
        ensures { self.new ≡ self.old }
    {
        if let Some(row) = &mut self.row {
            row.shrink_to_fit();
        }
    }
}

impl Clone for WordList {
    ghost is_clone = { λ list copy. copy ≡ list };

    fn clone(&self) -> Result<WordList, AllocError> {
        match &self.row {
            None => Ok(WordList {
                alloc: self.alloc,
                row: None,
            }),
            Some(row) => {
                let row = (**row).clone()?;
                Ok(WordList {
                    alloc: self.alloc,
                    row: Some(Box::new(self.alloc, row)?),
                })
            }
        }
    }
}

impl Clone for Row {
    ghost is_clone = { λ row copy. copy ≡ row };

    fn clone(&self) -> Result<Row, AllocError> {
        match self {
            Row::Own(row) => Ok(Row::Own(row.clone()?)),
            Row::Lent(lent) => Ok(Row::Lent(lent.clone()?)),
        }
    }
}

impl Row {
    fn len(&self) -> usize
        ensures { result ≡ length (words_of self.now) }
    {
        match self {
            Row::Own(row) => row.len(),
            Row::Lent(lent) => lent.len(),
        }
    }

    fn bytes_len(&self) -> usize
        ensures len { result ≡ length (packed (words_of self.now)) }
        ensures kept { list_all is_kept (words_of self.now) ≡ true }
    {
        match self {
            Row::Own(row) => row.bytes_len(),
            Row::Lent(lent) => lent.bytes_len(),
        }
    }

    fn words(&self) -> Words<'_>
        ensures { result ≡ words_of self.now }
    {
        match self {
            Row::Own(row) => row.words(),
            Row::Lent(lent) => lent.words(),
        }
    }

    fn push(&mut self, alloc: Global, word: &str) -> Result<(), NoMemory>
        requires { IsTrue (is_word word.now) }
        ensures ok { OnOk result (words_of self.new ≡ words_of self.old ++ word.now ∷ []) }
        ensures err { OnErr result (self.new ≡ self.old) }
    {
        match self {
            Row::Own(row) => row.push(word),
            Row::Lent(lent) => {
                let mut row = own_row(alloc, lent)?;
                row.push(word)?;
                *self = Row::Own(row);
                Ok(())
            }
        }
    }

    fn shrink_to_fit(&mut self)
        ensures { words_of self.new ≡ words_of self.old }
    {
        match self {
            Row::Own(row) => row.shrink_to_fit(),
            Row::Lent(_) => {}
        }
    }
}

/// The same words in a row of their own.
fn own_row(alloc: Global, lent: &LentWords) -> Result<WordRow, NoMemory>
    ensures { IfOk result (λ row. row ≡ lent.now) }
{
    let mut row = WordRow::new(alloc);
    let mut words = lent.words();
    'words: while let Some(word) = words.take_first() {
        row.push_bytes(word)?;
    }
    Ok(row)
}

impl WordRow {
    fn new(alloc: Global) -> WordRow
        ensures { result ≡ [] }
    {
        WordRow {
            count: 0,
            bytes: Vec::new(alloc),
        }
    }

    fn len(&self) -> usize
        ensures { result ≡ length self.now }
    {
        self.count
    }

    fn bytes_len(&self) -> usize
        ensures len { result ≡ length (packed self.now) }
        ensures kept { list_all is_kept self.now ≡ true }
    {
        self.bytes.len()
    }

    fn words(&self) -> Words<'_>
        ensures { result ≡ self.now }
    {
        Words {
            is_lent: false,
            count: self.count,
            bytes: self.bytes.as_slice(),
        }
    }

    fn push(&mut self, word: &str) -> Result<(), NoMemory>
        requires { IsTrue (is_word word.now) }
        ensures ok { OnOk result (self.new ≡ self.old ++ word.now ∷ []) }
        ensures err { OnErr result (self.new ≡ self.old) }
    {
        self.push_bytes(word.as_bytes())
    }

    fn push_bytes(&mut self, word: &[u8]) -> Result<(), NoMemory>
        requires { is_kept word.now ≡ true }
        ensures ok { OnOk result (self.new ≡ self.old ++ word.now ∷ []) }
        ensures err { OnErr result (self.new ≡ self.old) }
    {
        self.bytes.push(word.len() as u8)?;
        if self.bytes.extend_from_slice(word).is_err() {
            self.bytes.pop();
            return Err(NoMemory);
        }
        self.count += 1;
        Ok(())
    }

    fn shrink_to_fit(&mut self)
        ensures { self.new ≡ self.old }
    {
        self.bytes.shrink_to_fit();
    }
}

impl Copies for WordList {
    fn copy(&self) -> Result<WordList, NoMemory> {
        Ok(self.clone()?)
    }
}

impl<'a> Words<'a> {
    /// Words in the bytes of a record.
    pub(crate) fn lent(count: usize, bytes: &'a [u8]) -> Words<'a>
        ensures { result ≡ words_at count bytes.now }
    {
        Words {
            is_lent: true,
            count,
            bytes,
        }
    }

    pub fn is_empty(&self) -> bool
        ensures { IsTrue result ↔ (self.now ≡ []) }
    {
        self.count == 0 || self.bytes.len() < if self.is_lent { 4 } else { 1 }
    }

    /// Takes the first word.
    pub fn take_first(&mut self) -> Option<&'a [u8]>
        ensures { MatchOption result ((self.old ≡ []) × (self.new ≡ [])) (λ word. self.old ≡ word.now ∷ self.new) }
    {
        if self.count == 0 {
            return None;
        }
        let (word, rest) = if self.is_lent {
            first_lent(self.bytes)?
        } else {
            first_own(self.bytes)?
        };
        self.count -= 1;
        self.bytes = rest;
        Some(word)
    }

    /// The same words once more.
    pub fn again(&self) -> Words<'a>
        ensures { result ≡ self.now }
    {
        Words {
            is_lent: self.is_lent,
            count: self.count,
            bytes: self.bytes,
        }
    }
}

/// The first word of a row, and the bytes after it.
fn first_own<'a>(bytes: &'a [u8]) -> Option<(&'a [u8], &'a [u8])>
    ensures { MatchOption result (bytes.now ≡ []) (λ parts. (count : ℕ) → count ≢ 0 → unpacked count bytes.now ≡ parts.0.now ∷ unpacked (count - 1) parts.1.now) }
{
    let (len, rest) = bytes.split_first()?;
    Some(rest.split_at(usize::from(*len).min(rest.len())))
}

/// The first word of a record, and the bytes after it.
fn first_lent<'a>(bytes: &'a [u8]) -> Option<(&'a [u8], &'a [u8])>
    ensures { MatchOption result (length bytes.now < 4) (λ parts. (count : ℕ) → count ≢ 0 → words_at count bytes.now ≡ parts.0.now ∷ words_at (count - 1) parts.1.now) }
{
    let (len, rest) = split_length(bytes)?;
    Some(rest.split_at(len.min(rest.len())))
}
