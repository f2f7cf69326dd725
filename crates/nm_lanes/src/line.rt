//! One line of a script, for `reader`: what it is, and what a command line says by itself.

ghost use Rattle.std.specs.Prelude.{◌≡◌, [], ◌∷◌, nat_le, IfOk, Some, None, if◌then◌else◌};
ghost use Rattle.std.specs.Char.{is_ascii_digit};
ghost use Rattle.std.specs.List.{list_all};
ghost use Rattle.nm_lanes.specs.Lines.{command_line, flawed, in_lane, is_input, is_number, is_separator, lane_in, line_of_words, stray_line};
ghost use Rattle.nm_lanes.specs.Words.{words_of};

use crate::ScriptLine;
use crate::words::{next_word, words};
use nm_base::{Many, NoMemory, Text, UsageKind};
use std::alloc::Global;

const LAST_LANE: u32 = 15;

const MAX_DIGITS: usize = 10;

/// Whether the line is input, which begins with a bar.
pub(crate) fn is_input(line: &[u8]) -> bool
    ensures { result ≡ is_input line.now }
{
    match line {
        [] => false,
        [first, ..] => *first == b'|',
    }
}

/// Whether the line ends a phase.
pub(crate) fn is_separator(line: &[u8]) -> bool
    ensures { result ≡ is_separator line.now }
{
    line == b"---".as_slice()
}

/// Reads a command line, whose input is to come.
pub(crate) fn command_line(alloc: Global, number: u32, line: &[u8]) -> Result<ScriptLine, NoMemory>
    ensures { IfOk result (λ read. read ≡ command_line number line.now []) }
{
    match str::from_utf8(line) {
        Ok(text) => text_line(alloc, number, text),
        Err(_) => Ok(flawed(alloc, number, UsageKind::Utf8, Many::new(alloc))),
    }
}

/// An input line with no command before it.
pub(crate) fn stray_line(alloc: Global, number: u32) -> Result<ScriptLine, NoMemory>
    ensures { IfOk result (λ line. line ≡ stray_line number) }
{
    let word = one_word(alloc, "|")?;
    Ok(flawed(alloc, number, UsageKind::Input, word))
}

fn text_line(alloc: Global, number: u32, text: &str) -> Result<ScriptLine, NoMemory>
    ensures { IfOk result (λ read. read ≡ line_of_words number (words_of text.now) []) }
{
    let Some((word, rest)) = next_word(text) else {
        return Ok(in_lane(alloc, number, 0, Many::new(alloc)));
    };
    match lane_in(word) {
        Some(lane) => Ok(in_lane(alloc, number, lane, words(alloc, rest)?)),
        None => Ok(flawed(alloc, number, UsageKind::Lane, one_word(alloc, word)?)),
    }
}

/// The lane that a word says.
fn lane_in(word: &str) -> Option<u32>
    ensures { result ≡ lane_in word.now }
{
    if !is_number(word.as_bytes()) {
        return None;
    }
    match word.parse::<u32>() {
        Ok(number) => if_lane(number),
        Err(_) => None,
    }
}

fn if_lane(number: u32) -> Option<u32>
    ensures { result ≡ (if nat_le number 15 then Some number else None) }
{
    if number <= LAST_LANE {
        return Some(number);
    }
    None
}

fn is_number(word: &[u8]) -> bool
    ensures { result ≡ is_number word.now }
{
    if word.is_empty() || word.len() > MAX_DIGITS {
        return false;
    }
    are_digits(word)
}

fn are_digits(word: &[u8]) -> bool
    ensures { result ≡ list_all is_ascii_digit word.now }
{
    word.iter().all(|byte| is_digit(*byte))
}

fn is_digit(byte: u8) -> bool
    ensures { result ≡ is_ascii_digit byte }
{
    byte.is_ascii_digit()
}

fn in_lane(alloc: Global, number: u32, lane: u32, words: Many<Text>) -> ScriptLine
    ensures { result ≡ in_lane number lane words [] }
{
    ScriptLine {
        number,
        lane,
        words,
        input: Many::new(alloc),
        flaw: None,
    }
}

fn flawed(alloc: Global, number: u32, kind: UsageKind, words: Many<Text>) -> ScriptLine
    ensures { result ≡ flawed number kind words [] }
{
    ScriptLine {
        number,
        lane: 0,
        words,
        input: Many::new(alloc),
        flaw: Some(kind),
    }
}

fn one_word(alloc: Global, word: &str) -> Result<Many<Text>, NoMemory>
    ensures { IfOk result (λ words. words ≡ word.now ∷ []) }
{
    let mut words = Many::new(alloc);
    words.push(Text::of(alloc, word)?)?;
    Ok(words)
}
