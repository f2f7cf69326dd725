//! The call `batch_lines`: lines of tag changes, as `tag --batch` takes them, for `nm_batch`; `nm_dump` reads lines
//! of dumps with it.

ghost use Rattle.std.specs.Prelude.{◌≡◌, ◌+◌, ◌<◌, [], ◌∷◌, true, length, IfOk, IfSome, MatchOption, MatchResult, Some, None, Ok, Err};
ghost use Rattle.std.specs.Str.Lines.{lines};
ghost use Rattle.nm_tags.specs.TagLines.{asked_in, batch_lines, classified, is_passed_over, is_tag_word, op_of, query_after, read_line, with_op, IsLineFault};

use crate::decode::{decode_tag, text_of};
use crate::words::{is_tag_word, next_word, query_after, without_space};
use crate::{LineError, LineKind, TagLine, TagOp};
use nm_base::{Many, NoMemory, Text};
use nm_text::next_content;
use std::alloc::Global;

/// Reads lines of tag changes, each ended by LF or CR LF. Empty lines and comments are passed over; the first line that is none
/// is reported by its number, counted from 1. A line needs no changes where `clear` is set, since all tags are taken off then.
#[tactic(auto, using(crate::proofs::LineLemmas::with_one_line))]
pub fn batch_lines(alloc: Global, bytes: &[u8], clear: bool) -> Result<Many<TagLine>, LineError>
    ensures { MatchResult result (λ read. batch_lines bytes.now clear ≡ Ok read) (IsLineFault (batch_lines bytes.now clear)) }
{
    let mut read = Many::new(alloc);
    let mut number: u32 = 0;
    let mut rest = bytes;
    'lines: while let Some((line, more)) = next_content(rest) {
        number = next_number(number)?;
        rest = more;
        match classified(alloc, line, clear)? {
            Ok(None) => {}
            Ok(Some((ops, query))) => read.push(TagLine {
                line: number,
                ops,
                query,
            })?,
            Err(kind) => return bad_line(number, kind),
        }
    }
    Ok(read)
}

/// The number of the next line; more lines than a number can count find no memory.
fn next_number(number: u32) -> Result<u32, NoMemory>
    ensures { IfOk result (λ next. next ≡ number + 1) }
{
    number.checked_add(1).ok_or(NoMemory)
}

fn bad_line(line: u32, kind: LineKind) -> Result<Many<TagLine>, LineError>
    ensures { result ≡ Err (LineError.BadLine line kind) }
{
    Err(LineError::BadLine { line, kind })
}

/// What one line asks for, without its end: nothing where it is passed over, or its fault.
pub fn classified(
    alloc: Global,
    line: &[u8],
    clear: bool,
) -> Result<Result<Option<(Many<TagOp>, Text)>, LineKind>, NoMemory>
    ensures { IfOk result (λ answer. answer ≡ classified clear line.now) }
{
    let Some(text) = text_of(line) else {
        return Ok(Err(LineKind::Utf8));
    };
    if is_passed_over(text) {
        return Ok(Ok(None));
    }
    match read_line(alloc, text, clear)? {
        Ok(asked) => Ok(Ok(Some(asked))),
        Err(kind) => Ok(Err(kind)),
    }
}

/// Whether the line is empty, or a comment.
fn is_passed_over(line: &str) -> bool
    ensures { result ≡ is_passed_over line.now }
{
    if line.is_empty() {
        return true;
    }
    match without_space(line).as_bytes() {
        [] => false,
        [first, ..] => *first == b'#',
    }
}

/// What a line asks for, or its first fault.
fn read_line(
    alloc: Global,
    text: &str,
    clear: bool,
) -> Result<Result<(Many<TagOp>, Text), LineKind>, NoMemory>
    ensures { IfOk result (λ answer. answer ≡ read_line clear text.now) }
{
    let Some((ops, query)) = changes_of(alloc, text)? else {
        return Ok(Err(LineKind::Tag));
    };
    if ops.is_empty() && !clear {
        return Ok(Err(LineKind::Form));
    }
    if query.as_bytes().is_empty() {
        return Ok(Err(LineKind::Query));
    }
    Ok(Ok((ops, query)))
}

/// What the tag words at the front of a text ask for, and the query after them; nothing where one of them has no tag.
pub fn changes_of(alloc: Global, text: &str) -> Result<Option<(Many<TagOp>, Text)>, NoMemory>
    ensures { IfOk result (λ asked. asked ≡ asked_in text.now) }
{
    match read_ops(alloc, text)? {
        Some((ops, after)) => {
            let query = query_after(alloc, after)?;
            Ok(Some((ops, query)))
        }
        None => Ok(None),
    }
}

/// What the tag words at the front ask for, and the text after them; nothing where one of them has no tag.
#[tactic(auto, using(crate::proofs::LineLemmas::with_one_more))]
fn read_ops(alloc: Global, text: &str) -> Result<Option<(Many<TagOp>, &str)>, NoMemory>
    ensures { IfOk result (λ found. MatchOption found (asked_in text.now ≡ None) (λ found. asked_in text.now ≡ Some (found.0, query_after found.1.now))) }
{
    let mut ops = Many::new(alloc);
    let mut rest = text;
    'words: while let Some((word, more)) = next_tag_word(rest) {
        let Some(op) = op_of(alloc, word)? else {
            return Ok(None);
        };
        ops.push(op)?;
        rest = more;
    }
    Ok(Some((ops, rest)))
}

/// The first word where it is a tag word, and the text after it.
fn next_tag_word(text: &str) -> Option<(&str, &str)>
    ensures asked { MatchOption result (asked_in text.now ≡ Some ([], query_after text.now)) (λ cut. asked_in text.now ≡ with_op (op_of cut.0.now) (asked_in cut.1.now)) }
    ensures word { IfSome result (λ cut. is_tag_word cut.0.now ≡ true) }
    ensures shorter { IfSome result (λ cut. length cut.1.now < length text.now) }
{
    match next_word(text) {
        Some((word, after)) if is_tag_word(word) => Some((word, after)),
        _ => None,
    }
}

/// What a tag word asks for; nothing where it has no tag.
fn op_of(alloc: Global, word: &str) -> Result<Option<TagOp>, NoMemory>
    requires { is_tag_word word.now ≡ true }
    ensures { IfOk result (λ op. op ≡ op_of word.now) }
{
    let add = word.as_bytes()[0] == b'+';
    match decode_tag(alloc, &word[1..])? {
        Some(tag) => Ok(Some(TagOp { add, tag })),
        None => Ok(None),
    }
}
