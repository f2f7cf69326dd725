//! A word of UAX 29, or a line of ASCII, cut at ASCII signs and folded, for `words`.

ghost use Rattle.std.specs.Prelude.{◌≡◌, [], ◌∷◌, ◌++◌, filter, true, OnOk, position, string_bytes};
ghost use Rattle.std.specs.List.{list_all, slice_split};
ghost use Rattle.nm_base.specs.Word.{is_word as has_word};
ghost use Rattle.nm_words.specs.Words.{chosen, folded, is_cut, is_low, is_named, words_in};

use caseless::Caseless;
use nm_base::{NoMemory, WordList, is_word};

/// The pieces of a text, without case, after those that were found before: all, or those with a letter or a digit of ASCII.
/// `room` is for folding.
pub(crate) fn add_pieces(
    text: &str,
    named: bool,
    room: &mut String,
    found: &mut WordList,
) -> Result<(), NoMemory>
    ensures { OnOk result (found.new ≡ found.old ++ words_in (chosen named (slice_split is_cut text.now))) }
{
    let mut left = text;
    'pieces: while let Some(at) = cut_at(left) {
        add_chosen(&left[..at], named, room, found)?;
        left = &left[at + 1..];
    }
    add_chosen(left, named, room, found)
}

fn add_chosen(
    piece: &str,
    named: bool,
    room: &mut String,
    found: &mut WordList,
) -> Result<(), NoMemory>
    ensures { OnOk result (found.new ≡ found.old ++ words_in (chosen named (piece.now ∷ []))) }
{
    if named && !is_named(piece) {
        return Ok(());
    }
    add_piece(piece, room, found)
}

#[tactic(auto, using(crate::proofs::FoldLemmas::folded_low))]
fn add_piece(piece: &str, room: &mut String, found: &mut WordList) -> Result<(), NoMemory>
    ensures { OnOk result (found.new ≡ found.old ++ words_in (piece.now ∷ [])) }
{
    // Nearly all pieces are in lower case already.
    if is_lower(piece) {
        return add_word(piece, found);
    }
    fold(piece, room)?;
    add_word(room.as_str(), found)
}

/// Adds what is a word.
fn add_word(word: &str, found: &mut WordList) -> Result<(), NoMemory>
    ensures { OnOk result (found.new ≡ found.old ++ filter has_word (word.now ∷ [])) }
{
    if !is_word(word) {
        return Ok(());
    }
    found.push(word)
}

/// Leaves the piece without case in `room`, whose memory serves all pieces of a text.
#[tactic(auto, using(crate::proofs::FoldLemmas::folded_ascii))]
fn fold(piece: &str, room: &mut String) -> Result<(), NoMemory>
    ensures { OnOk result (string_bytes room.new ≡ folded piece.now) }
{
    room.clear();
    // In ASCII no character has to be decoded.
    if piece.is_ascii() {
        room.push_str(piece)?;
        room.make_ascii_lowercase();
        return Ok(());
    }
    room.extend(piece.chars().default_case_fold())?;
    Ok(())
}

/// Whether the piece is ASCII without capital letters, which folding leaves as it is.
fn is_lower(piece: &str) -> bool
    ensures { result ≡ list_all is_low piece.now }
{
    piece.as_bytes().iter().all(|b| is_low(*b))
}

fn is_low(b: u8) -> bool
    ensures { result ≡ is_low b }
{
    b < 128 && !b.is_ascii_uppercase()
}

fn is_named(piece: &str) -> bool
    ensures { result ≡ is_named piece.now }
{
    piece.as_bytes().iter().any(|b| b.is_ascii_alphanumeric())
}

fn cut_at(text: &str) -> Option<usize>
    ensures { result ≡ position is_cut text.now }
{
    text.as_bytes().iter().position(|b| is_cut(*b))
}

fn is_cut(b: u8) -> bool
    ensures { result ≡ is_cut b }
{
    b < 128 && !(b.is_ascii_alphanumeric() || b == b'_')
}
