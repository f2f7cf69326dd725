//! Lines that change tags, as `tag --batch` takes them, for `nm_prepare`.

ghost use Rattle.nm_model_answer.specs.BatchLines.{tag_line, tagging_by, taggings_in};
ghost use Rattle.nm_batch.specs.Faults.{IsFirstFault};
ghost use Rattle.std.specs.Prelude.{◌≡◌, IfOk, MatchResult, Ok};

use crate::lines::{LineReader, read_lines};
use crate::queries::line_query;
use nm_base::{Many, NoMemory, TagOp, Text};
use nm_model_answer::TagChange;
use nm_tags::{LineError, LineKind, classified};
use std::alloc::Global;

/// Reads the changes of tags of an input, each with the query that it is for. Empty lines and comments are passed over; the
/// first line that is none is reported by its number, counted from 1. A line needs no changes where `clear` is set, since all
/// tags are taken off then.
pub fn read_taggings(alloc: Global, input: &[u8], clear: bool) -> Result<Many<TagChange>, LineError>
    ensures { MatchResult result (λ read. taggings_in clear input.now ≡ Ok read) (IsFirstFault (taggings_in clear input.now)) }
{
    read_lines(alloc, &TagLines { clear }, input)
}

/// Each line that is not passed over has changes of tags, and a query.
#[derive(Clone, Copy)]
struct TagLines {
    clear: bool,
}

impl LineReader for TagLines {
    type Item = TagChange;

    ghost says = { λ reader. tag_line reader.clear };

    fn read(
        &self,
        alloc: Global,
        line: &[u8],
    ) -> Result<Result<Option<TagChange>, LineKind>, NoMemory> {
        match classified(alloc, line, self.clear)? {
            Ok(None) => Ok(Ok(None)),
            Ok(Some((ops, text))) => tagging_by(alloc, self.clear, ops, &text),
            Err(kind) => Ok(Err(kind)),
        }
    }
}

/// What a line asks for whose words are read.
fn tagging_by(
    alloc: Global,
    clear: bool,
    ops: Many<TagOp>,
    text: &Text,
) -> Result<Result<Option<TagChange>, LineKind>, NoMemory>
    ensures { IfOk result (λ read. read ≡ tagging_by clear ops text.now) }
{
    match line_query(alloc, text.as_str())? {
        Ok(query) => Ok(Ok(Some(TagChange { clear, ops, query }))),
        Err(kind) => Ok(Err(kind)),
    }
}
