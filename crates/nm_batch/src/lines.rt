//! The lines of an input, whatever `queries` or `taggings` read of one.

ghost use Rattle.nm_model_answer.specs.BatchLines.{read_each};
ghost use Rattle.nm_batch.specs.Faults.{IsFirstFault};
ghost use Rattle.nm_tags.specs.declared.line_error.LineKind.{LineKind};
ghost use Rattle.std.specs.Prelude.{◌≡◌, ◌+◌, ℕ, List, [], ◌∷◌, length, IfOk, MatchResult, Ok, Err, Option, Result};
ghost use Rattle.std.specs.Str.Lines.{lines};

use nm_base::{Many, NoMemory};
use nm_tags::{LineError, LineKind};
use nm_text::next_content;
use std::alloc::Global;

/// How one line is read.
pub trait LineReader {
    type Item: Drop;

    /// What a line without its end says: nothing where it is passed over, or its fault.
    ghost says: { Self → List ℕ → Result (Option Self.Item) LineKind };

    fn read(
        &self,
        alloc: Global,
        line: &[u8],
    ) -> Result<Result<Option<Self::Item>, LineKind>, NoMemory>
        ensures { IfOk result (λ read. read ≡ says self.now line.now) };
}

/// Reads the lines of an input, each ended by LF or CR LF, up to the first fault.
#[tactic(auto, using(crate::proofs::LineLemmas::with_one_line))]
pub fn read_lines<R: LineReader>(
    alloc: Global,
    reader: &R,
    input: &[u8],
) -> Result<Many<R::Item>, LineError>
    ensures { MatchResult result (λ items. read_each (R.says reader.now) 1 (lines input.now) ≡ Ok items) (IsFirstFault (read_each (R.says reader.now) 1 (lines input.now))) }
{
    let mut items = Many::new(alloc);
    let mut number: u32 = 0;
    let mut rest = input;
    'lines: while let Some((line, more)) = next_content(rest) {
        number = next_number(number)?;
        rest = more;
        match reader.read(alloc, line)? {
            Ok(None) => {}
            Ok(Some(item)) => items.push(item)?,
            Err(kind) => return Err(LineError::BadLine { line: number, kind }),
        }
    }
    Ok(items)
}

/// The number of the next line; more lines than a number can count find no memory.
fn next_number(number: u32) -> Result<u32, NoMemory>
    ensures { IfOk result (λ next. next ≡ number + 1) }
{
    number.checked_add(1).ok_or(NoMemory)
}
