//! The call `read_dump`: what the lines of a dump ask for. `nm_prepare` reads the input of `restore` with it.

ghost use Rattle.std.specs.Prelude.{◌≡◌, ◌+◌, [], ◌∷◌, length, IfOk, MatchResult, Ok, Err, if◌then◌else◌};
ghost use Rattle.std.specs.Str.Lines.{lines};
ghost use Rattle.nm_model_answer.specs.BatchTag.{read_batch_tag};
ghost use Rattle.nm_model_answer.specs.DumpLines.{begins_changes, classified, form_of, is_passed_over, read_dump, read_line, told_form, IsDumpFault};

use crate::ids::id_of_query;
use crate::sup::read_sup;
use nm_base::{DumpForm, Many, MessageId, NoMemory, ReadForm, TagOp};
use nm_tags::{LineError, LineKind, Wanted, changes_of, text_of};
use nm_text::{next_content, trimmed_start};
use std::alloc::Global;

/// Reads the lines of a dump, each ended by LF or CR LF. Empty lines and those that begin with `#` are passed over; the first line
/// that is out of its form is reported by its number, counted from 1. Where the form is `Auto`, the first other line tells it.
#[tactic(auto, using(crate::proofs::DumpLemmas::with_one_line))]
pub fn read_dump(alloc: Global, bytes: &[u8], form: ReadForm) -> Result<Many<Wanted>, LineError>
    ensures { MatchResult result (λ read. read_dump bytes.now form ≡ Ok read) (IsDumpFault (read_dump bytes.now form)) }
{
    let form = form_of(form, bytes);
    let mut read = Many::new(alloc);
    let mut number: u32 = 0;
    let mut rest = bytes;
    'lines: while let Some((line, more)) = next_content(rest) {
        number = next_number(number)?;
        rest = more;
        match classified(alloc, line, form)? {
            Ok(None) => {}
            Ok(Some((id, ops))) => read.push(Wanted {
                line: number,
                id,
                ops,
            })?,
            Err(kind) => return bad_line(number, kind),
        }
    }
    Ok(read)
}

/// The number of the next line; more lines than a number can count find no memory.
fn next_number(number: u32) -> Result<u32, NoMemory>
    ensures { IfOk result (λ next. next ≡ number + 1) }
{
    number.checked_add(1).ok_or(NoMemory)
}

fn bad_line(line: u32, kind: LineKind) -> Result<Many<Wanted>, LineError>
    ensures { result ≡ Err (LineError.BadLine line kind) }
{
    Err(LineError::BadLine { line, kind })
}

/// The form in which the lines are read.
fn form_of(form: ReadForm, bytes: &[u8]) -> DumpForm
    ensures { result ≡ form_of form (lines bytes.now) }
{
    match form {
        ReadForm::Auto => told_form(bytes),
        ReadForm::BatchTag => DumpForm::BatchTag,
        ReadForm::Sup => DumpForm::Sup,
    }
}

/// The form that the first line tells which is not passed over.
fn told_form(bytes: &[u8]) -> DumpForm
    ensures { result ≡ told_form (lines bytes.now) }
{
    let mut rest = bytes;
    'lines: while let Some((line, more)) = next_content(rest) {
        if !is_passed_over(line) {
            return line_form(line);
        }
        rest = more;
    }
    DumpForm::Sup
}

fn line_form(line: &[u8]) -> DumpForm
    ensures { result ≡ (if begins_changes line.now then DumpForm.BatchTag else DumpForm.Sup) }
{
    let text = trimmed_start(line);
    if text.starts_with(b"+") || text.starts_with(b"--") {
        return DumpForm::BatchTag;
    }
    DumpForm::Sup
}

fn is_passed_over(line: &[u8]) -> bool
    ensures { result ≡ is_passed_over line.now }
{
    match line {
        [] => true,
        [first, ..] => *first == b'#',
    }
}

/// What the line asks for, nothing where it is passed over, or its fault.
fn classified(
    alloc: Global,
    line: &[u8],
    form: DumpForm,
) -> Result<Result<Option<(MessageId, Many<TagOp>)>, LineKind>, NoMemory>
    ensures { IfOk result (λ answer. answer ≡ classified form line.now) }
{
    let Some(text) = text_of(line) else {
        return Ok(Err(LineKind::Utf8));
    };
    if is_passed_over(line) {
        return Ok(Ok(None));
    }
    match read_line(alloc, text, form)? {
        Ok(asked) => Ok(Ok(Some(asked))),
        Err(kind) => Ok(Err(kind)),
    }
}

fn read_line(
    alloc: Global,
    text: &str,
    form: DumpForm,
) -> Result<Result<(MessageId, Many<TagOp>), LineKind>, NoMemory>
    ensures { IfOk result (λ answer. answer ≡ read_line form text.now) }
{
    match form {
        DumpForm::BatchTag => read_batch_tag(alloc, text),
        DumpForm::Sup => read_sup(alloc, text),
    }
}

fn read_batch_tag(
    alloc: Global,
    text: &str,
) -> Result<Result<(MessageId, Many<TagOp>), LineKind>, NoMemory>
    ensures { IfOk result (λ answer. answer ≡ read_batch_tag text.now) }
{
    let Some((ops, query)) = changes_of(alloc, text)? else {
        return Ok(Err(LineKind::Tag));
    };
    match id_of_query(alloc, query.as_bytes())? {
        Some(id) => Ok(Ok((id, ops))),
        None => Ok(Err(LineKind::Form)),
    }
}
