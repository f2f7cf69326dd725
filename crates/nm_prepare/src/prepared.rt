//! What a line asks for, ready to be answered: its query has a tree, and each line of its input is of its form. `nm_phase` prepares the
//! lines of a script by it, `nm_call` a single command, and `nm_line` what another lane answers.

ghost use Rattle.std.specs.Prelude.{◌≡◌, MatchResult, Ok};
ghost use Rattle.nm_history.specs.Requests.{refused_text, refused_text_of};
ghost use Rattle.nm_prepare.specs.Prepared.{AreTagLines, IsFault, IsPreparedAs};
ghost use Rattle.nm_log.specs.ParsedLine.{parse_line};
ghost use Rattle.nm_query.specs.Answers.{answer_of};

use nm_base::{Copies, CountAsk, DumpAsk, Many, NoMemory, RestoreAsk, SearchAsk, ShowAsk, TagAsk};
use nm_batch::{read_queries, read_taggings};
use nm_dump::read_dump;
use nm_lanes::ScriptLine;
use nm_log::{Outcome, ParsedLine, parse_line};
use nm_model_answer::{Request, TagChange};
use nm_query::{Query, QueryError, parse};
use nm_tags::{LineError, Wanted};
use std::alloc::Global;

/// A request that is ready to be answered.
#[derive(Drop)]
pub enum Prepared {
    New,
    Read(Reading),
    Show(ShowAsk, Query),
    Tag(TagAsk, Many<TagChange>),
    Restore(RestoreAsk, Many<Wanted>),
}

/// One that every lane may ask for: the index alone answers it.
#[derive(Drop)]
pub enum Reading {
    Count(CountAsk, Query),
    /// Each query of an input is counted.
    Counts(CountAsk, Many<Query>),
    Search(SearchAsk, Query),
    Dump(DumpAsk, Query),
}

/// Why a line is not ready.
#[derive(Drop)]
pub enum AskError {
    /// It ends so: its words, its query or a line of its input is at fault.
    Refused(Outcome),
    NoMemory,
}

impl From<NoMemory> for AskError {
    ghost use Rattle.nm_prepare.specs.declared.prepared.AskError.TheVariants as errors;

    ghost from_gives = { λ _ e. e ≡ errors.NoMemory };

    fn from(_: NoMemory) -> AskError {
        AskError::NoMemory
    }
}

impl From<QueryError> for AskError {
    ghost use Rattle.nm_prepare.specs.Prepared.{query_error};

    ghost from_gives = { λ error e. e ≡ query_error error };

    fn from(error: QueryError) -> AskError {
        match error {
            QueryError::BadQuery { at, kind } => AskError::Refused(Outcome::BadQuery { at, kind }),
            QueryError::BadDate { at } => AskError::Refused(Outcome::BadDate { at }),
            QueryError::Limit(limit) => AskError::Refused(Outcome::Limit(limit)),
            QueryError::NoMemory => AskError::NoMemory,
        }
    }
}

impl From<LineError> for AskError {
    ghost use Rattle.nm_prepare.specs.Prepared.{line_error};

    ghost from_gives = { λ error e. e ≡ line_error error };

    fn from(error: LineError) -> AskError {
        match error {
            LineError::BadLine { line, kind } => AskError::Refused(Outcome::BadLine { line, kind }),
            LineError::NoMemory => AskError::NoMemory,
        }
    }
}

/// Reads what a line of a script asks for, and prepares it.
pub fn prepare_line(alloc: Global, line: &ScriptLine) -> Result<Prepared, AskError>
    ensures { IsPreparedAs (parse_line line.now) line.now.input result }
{
    match parse_line(alloc, line)? {
        ParsedLine::Usage { word, kind } => Err(AskError::Refused(Outcome::Usage { word, kind })),
        ParsedLine::Request(request) => prepare(alloc, request, line.input.as_slice()),
    }
}

/// Prepares a request: its query is parsed, or the lines of its input are read.
pub fn prepare(alloc: Global, request: Request, input: &[u8]) -> Result<Prepared, AskError>
    ensures { IsPreparedAs (ParsedLine.Request request) input.now result }
{
    match request {
        Request::New => Ok(Prepared::New),
        Request::Count(ask) => prepare_count(alloc, ask, input),
        Request::Search(ask) => {
            let query = query_of(alloc, ask.query.as_str())?;
            Ok(Prepared::Read(Reading::Search(ask, query)))
        }
        Request::Dump(ask) => {
            let query = query_of(alloc, ask.query.as_str())?;
            Ok(Prepared::Read(Reading::Dump(ask, query)))
        }
        Request::Show(ask) => {
            let query = query_of(alloc, ask.query.as_str())?;
            Ok(Prepared::Show(ask, query))
        }
        Request::Tag(ask) => {
            let lines = tag_lines(alloc, &ask, input)?;
            Ok(Prepared::Tag(ask, lines))
        }
        Request::Restore(ask) => {
            let wanted = read_dump(alloc, input, ask.form)?;
            Ok(Prepared::Restore(ask, wanted))
        }
    }
}

/// The tree of a query.
fn query_of(alloc: Global, text: &str) -> Result<Query, AskError>
    ensures { MatchResult result (λ query. answer_of text.now ≡ Ok query) (IsFault (refused_text (answer_of text.now))) }
{
    Ok(parse(alloc, text)?)
}

/// A count has its query, or those of its input.
fn prepare_count(alloc: Global, ask: CountAsk, input: &[u8]) -> Result<Prepared, AskError>
    ensures { IsPreparedAs (ParsedLine.Request (Request.Count ask)) input.now result }
{
    if ask.batch {
        let queries = read_queries(alloc, input)?;
        return Ok(Prepared::Read(Reading::Counts(ask, queries)));
    }
    let query = query_of(alloc, ask.query.as_str())?;
    Ok(Prepared::Read(Reading::Count(ask, query)))
}

/// The lines of a `tag`: those of its input, or the one that its words are.
fn tag_lines(alloc: Global, ask: &TagAsk, input: &[u8]) -> Result<Many<TagChange>, AskError>
    ensures { MatchResult result (AreTagLines ask.now input.now) (IsFault (refused_text_of (Request.Tag ask.now) input.now)) }
{
    if ask.batch {
        return Ok(read_taggings(alloc, input, ask.clear)?);
    }
    let query = query_of(alloc, ask.query.as_str())?;
    let ops = ask.ops.copy()?;
    let mut lines = Many::new(alloc);
    lines.push(TagChange {
        clear: ask.clear,
        ops,
        query,
    })?;
    Ok(lines)
}
