//! The call `parse`: a text to its tree, or to the one refusal. `nm_session` and `nm_batch` read queries with it.

ghost use Rattle.std.specs.Prelude.{◌≡◌, ◌⊎◌, ◌≤◌, IfOk, MatchResult, Ok, Err, length};
ghost use Rattle.nm_query.specs.Answers.{answer_of, nested, structured, tokened};

use crate::faults::structure_fault;
use crate::nesting::is_too_deep;
use crate::token::Placed;
use crate::tokens::tokens;
use crate::tree_reader::tree;
use crate::{Query, QueryError};
use nm_base::{Limit, Many, NoMemory};
use std::alloc::Global;

const MAX_BYTES: usize = 65536;

/// Reads a text of at most 65,536 bytes as a query. Of its faults the first of a token is reported, then that it nests
/// deeper than 64, then the first of structure.
pub fn parse(alloc: Global, text: &str) -> Result<Query, QueryError>
    ensures { MatchResult result (λ query. answer_of text.now ≡ Ok query)
        (λ error. (error ≡ QueryError.NoMemory) ⊎ (answer_of text.now ≡ Err error)) }
{
    match answer(alloc, text) {
        Ok(Ok(query)) => Ok(query),
        Ok(Err(refusal)) => Err(refusal),
        Err(_) => Err(QueryError::NoMemory),
    }
}

fn answer(alloc: Global, text: &str) -> Result<Result<Query, QueryError>, NoMemory>
    ensures { IfOk result (λ answer. answer ≡ answer_of text.now) }
{
    if text.len() > MAX_BYTES {
        return Ok(Err(QueryError::Limit(Limit::QueryBytes)));
    }
    match tokens(alloc, text)? {
        Ok(tokens) => nested(alloc, tokens),
        Err(refusal) => Ok(Err(refusal)),
    }
}

fn nested(alloc: Global, tokens: Many<Placed>) -> Result<Result<Query, QueryError>, NoMemory>
    ensures { IfOk result (λ answer. answer ≡ nested tokens) }
{
    if is_too_deep(alloc, tokens.as_slice())? {
        return Ok(Err(QueryError::Limit(Limit::QueryDepth)));
    }
    if let Some(fault) = structure_fault(tokens.as_slice()) {
        return Ok(Err(fault));
    }
    let query = tree(alloc, tokens)?;
    Ok(Ok(query))
}
