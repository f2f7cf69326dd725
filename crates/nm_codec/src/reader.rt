//! Reading bytes from left to right: `nm_record` reads the index from the disk so.

ghost use Rattle.std.specs.Prelude.{◌≡◌, ◌<◌, ◌≤◌, ◌+◌, ◌-◌, length, take, drop, MatchOption, MatchResult, Ok, OnErr, [], IsOk, ◌↔◌, IfErr, IfOk};
ghost use Rattle.std.specs.Int.{w8, w32, w64};
ghost use Rattle.nm_codec.specs.Grammar.{word_grammar};
ghost use Rattle.nm_codec.specs.ReadSteps.{Gives, GivesUnlessNoMemory, items_at, number_at, signed_at, text_at};

use crate::words_len::{are_texts, words_len};
use crate::{Bad, ReadError};
use nm_base::{Copies, NoMemory, SharedBytes, Text, WordList};
use std::alloc::Global;
use std::marker::Model;

/// Reads bytes from left to right, seen as the bytes that are left and how many there are in all.
#[derive(Drop)]
pub struct Reader<'a> {
    len: usize,
    rest: &'a [u8],
    /// The bytes in all, where what is read may stay in them.
    shared: Option<&'a SharedBytes>,
}

impl<'a> Model for Reader<'a> {
    ghost use Rattle.std.specs.Prelude.{◌≤◌, length};
    ghost use Rattle.nm_codec.specs.ReadSteps.{Place};
    ghost use Rattle.nm_codec.specs.Shared.{IsEndOf};

    ghost Value = { Place };

    ghost view = { λ r. record { len = r.len; rest = r.rest.now } };

    ghost invariant = { λ r. (length r.rest.now ≤ r.len) × IsEndOf r.shared r.len r.rest.now };
}

impl<'a> Reader<'a> {
    pub fn new(bytes: &'a [u8]) -> Reader<'a>
        ensures { result ≡ record { len = length bytes.now; rest = bytes.now } }
    {
        Reader {
            len: bytes.len(),
            rest: bytes,
            shared: None,
        }
    }

    /// Reads bytes that several hold: words may stay in them.
    pub fn over(shared: &'a SharedBytes) -> Reader<'a>
        ensures { result ≡ record { len = length shared.now; rest = shared.now } }
    {
        let bytes = shared.as_slice();
        Reader {
            len: bytes.len(),
            rest: bytes,
            shared: Some(shared),
        }
    }

    /// How many bytes have been read.
    pub fn at(&self) -> u64
        ensures { result + length self.now.rest ≡ self.now.len }
    {
        (self.len - self.rest.len()) as u64
    }

    pub fn u8(&mut self) -> Result<u8, Bad>
        ensures value { Gives self.old result self.new (number_at w8 self.old.rest) }
        ensures err { OnErr result (self.new ≡ self.old) }
    {
        let front = self.front(1)?;
        Ok(u8::from_be_bytes([front[0]]))
    }

    pub fn u32(&mut self) -> Result<u32, Bad>
        ensures value { Gives self.old result self.new (number_at w32 self.old.rest) }
        ensures err { OnErr result (self.new ≡ self.old) }
    {
        let front = self.front(4)?;
        Ok(u32::from_be_bytes([front[0], front[1], front[2], front[3]]))
    }

    pub fn u64(&mut self) -> Result<u64, Bad>
        ensures value { Gives self.old result self.new (number_at w64 self.old.rest) }
        ensures err { OnErr result (self.new ≡ self.old) }
    {
        let front = self.front(8)?;
        Ok(u64::from_be_bytes([
            front[0], front[1], front[2], front[3], front[4], front[5], front[6], front[7],
        ]))
    }

    /// A number in two's complement.
    #[tactic(auto, unfolding(crate::specs::ReadSteps::signed_at))]
    pub fn i64(&mut self) -> Result<i64, Bad>
        ensures value { Gives self.old result self.new (signed_at self.old.rest) }
        ensures err { OnErr result (self.new ≡ self.old) }
    {
        let number = self.u64()?;
        Ok(number.cast_signed())
    }

    /// A text, whose length comes before it.
    pub fn text(&mut self, alloc: Global) -> Result<Text, ReadError>
        ensures value { GivesUnlessNoMemory self.old result self.new (text_at self.old.rest) }
        ensures err { OnErr result (self.new ≡ self.old) }
    {
        let begin = self.again();
        let answer = self.read_text(alloc);
        if answer.is_err() {
            *self = begin;
        }
        answer
    }

    /// A reader at the same place.
    fn again(&self) -> Reader<'a>
        ensures { result ≡ self.now }
    {
        Reader {
            len: self.len,
            rest: self.rest,
            shared: self.shared,
        }
    }

    fn read_text(&mut self, alloc: Global) -> Result<Text, ReadError>
        ensures value { GivesUnlessNoMemory self.old result self.new (text_at self.old.rest) }
        ensures len { self.new.len ≡ self.old.len }
    {
        let text = self.str()?;
        Ok(Text::of(alloc, text)?)
    }

    /// A text as it is in the bytes. After an error the reader is somewhere after its beginning.
    #[tactic(auto, unfolding(crate::specs::ReadSteps::text_at), using(crate::proofs::Utf8Lemmas::utf8))]
    pub fn str(&mut self) -> Result<&'a str, Bad>
        ensures value { MatchResult result
            (λ text. (text_at self.old.rest ≡ Ok (text.now, self.new.rest)) × (self.new.len ≡ self.old.len))
            (λ bad. (bad.at ≤ self.old.len) × (text_at self.old.rest ≡ Err (self.old.len - bad.at))) }
        ensures len { self.new.len ≡ self.old.len }
    {
        let at = self.at();
        let len = self.u32()?;
        let front = self.front(len as usize)?;
        match str::from_utf8(front) {
            Ok(text) => Ok(text),
            Err(_) => Err(Bad { at }),
        }
    }

    // The next bytes, n.
    fn front(&mut self, count: usize) -> Result<&'a [u8], Bad>
        ensures value { MatchResult result
            (λ front. (front.now ≡ take count self.old.rest) × (self.new.rest ≡ drop count self.old.rest) × (self.new.len ≡ self.old.len) × (count ≤ length self.old.rest))
            (λ bad. (length self.old.rest < count) × (bad.at ≡ self.old.len) × (self.new ≡ self.old)) }
    {
        if self.rest.len() < count {
            return Err(self.too_short());
        }
        let (front, rest) = self.rest.split_at(count);
        self.rest = rest;
        Ok(front)
    }

    /// The words that come next, n, where they stay in the bytes, which several hold. Where that is not so nothing is read.
    pub(crate) fn lent_words(
        &mut self,
        alloc: Global,
        count: u32,
    ) -> Result<Option<WordList>, NoMemory>
        ensures { IfOk result (λ found. MatchOption found (self.new ≡ self.old)
            (λ words. (items_at word_grammar.read count self.old.rest ≡ Ok (words, self.new.rest)) × (self.new.len ≡ self.old.len))) }
    {
        let Some(shared) = self.shared else {
            return Ok(None);
        };
        let Some(len) = words_len(self.rest, count) else {
            return Ok(None);
        };
        if !are_texts(self.rest, len, count) {
            return Ok(None);
        }
        let (_, rest) = self.rest.split_at(len);
        let at = self.len - self.rest.len();
        let words = WordList::lent(alloc, shared.copy()?, at, len, count as usize)?;
        self.rest = rest;
        Ok(Some(words))
    }

    fn too_short(&self) -> Bad
        ensures { result.at ≡ self.now.len }
    {
        Bad {
            at: self.len as u64,
        }
    }

    /// Whether nothing is left.
    pub fn end(&self) -> Result<(), Bad>
        ensures end { IsOk result ↔ (self.now.rest ≡ []) }
        ensures bad { IfErr result (λ bad. bad.at + length self.now.rest ≡ self.now.len) }
    {
        if self.rest.is_empty() {
            return Ok(());
        }
        Err(Bad { at: self.at() })
    }
}
