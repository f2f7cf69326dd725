//! Lines that are queries, as `count --batch` takes them, for `nm_prepare`.

ghost use Rattle.nm_model_answer.specs.BatchLines.{count_line, line_query, queries_in};
ghost use Rattle.nm_batch.specs.Faults.{IsFirstFault};
ghost use Rattle.std.specs.Prelude.{◌≡◌, IfOk, MatchResult, Ok};

use crate::lines::{LineReader, read_lines};
use nm_base::{Many, NoMemory};
use nm_query::{Query, QueryError, parse};
use nm_tags::{LineError, LineKind, text_of};
use std::alloc::Global;

/// Reads the queries of an input, one a line; an empty line finds all messages. The first line that is no query is reported by
/// its number, counted from 1.
pub fn read_queries(alloc: Global, input: &[u8]) -> Result<Many<Query>, LineError>
    ensures { MatchResult result (λ read. queries_in input.now ≡ Ok read) (IsFirstFault (queries_in input.now)) }
{
    read_lines(alloc, &CountLines, input)
}

/// Each line is a query.
#[derive(Clone, Copy)]
struct CountLines;

impl LineReader for CountLines {
    type Item = Query;

    ghost says = { λ _. count_line };

    fn read(
        &self,
        alloc: Global,
        line: &[u8],
    ) -> Result<Result<Option<Query>, LineKind>, NoMemory> {
        let Some(text) = text_of(line) else {
            return Ok(Err(LineKind::Utf8));
        };
        match line_query(alloc, text)? {
            Ok(query) => Ok(Ok(Some(query))),
            Err(kind) => Ok(Err(kind)),
        }
    }
}

/// The query of a line. Whatever is wrong with its text, it is no query.
pub fn line_query(alloc: Global, text: &str) -> Result<Result<Query, LineKind>, NoMemory>
    ensures { IfOk result (λ query. query ≡ line_query text.now) }
{
    match parse(alloc, text) {
        Ok(query) => Ok(Ok(query)),
        Err(QueryError::NoMemory) => Err(NoMemory),
        Err(QueryError::BadQuery { .. } | QueryError::BadDate { .. } | QueryError::Limit(_)) => {
            Ok(Err(LineKind::Query))
        }
    }
}
