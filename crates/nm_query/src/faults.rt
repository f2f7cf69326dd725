//! Faults of structure, for `parse`: a parenthesis without its fellow, and an operator or a `(` without an operand.

ghost use Rattle.std.specs.Prelude.{◌≡◌, ◌≤◌, ◌<◌, Some, false, length};
ghost use Rattle.nm_query.specs.Faults.{begin_operand, begins_operand, ends_operand, first_fault, lacking_from, lacks_operand, needs_after, needs_before, structure_fault, unmatched_from};

use crate::token::{Placed, Token};
use crate::{QueryError, QueryKind};

/// The first fault, and at one place that of the parenthesis.
pub(crate) fn structure_fault(tokens: &[Placed]) -> Option<QueryError>
    ensures { result ≡ structure_fault tokens.now }
{
    first_fault(unmatched(tokens), lacking(tokens))
}

fn first_fault(paren: Option<u32>, operand: Option<u32>) -> Option<QueryError>
    ensures { result ≡ first_fault paren operand }
{
    match (paren, operand) {
        (None, None) => None,
        (None, Some(at)) => fault(at, QueryKind::Operand),
        (Some(at), None) => fault(at, QueryKind::Paren),
        (Some(paren), Some(operand)) => {
            if paren <= operand {
                return fault(paren, QueryKind::Paren);
            }
            fault(operand, QueryKind::Operand)
        }
    }
}

fn fault(at: u32, kind: QueryKind) -> Option<QueryError>
    ensures { result ≡ Some (QueryError.BadQuery at kind) }
{
    Some(QueryError::BadQuery { at, kind })
}

/// The place of the first parenthesis without its fellow.
fn unmatched(tokens: &[Placed]) -> Option<u32>
    ensures { result ≡ unmatched_from 0 tokens.now }
{
    let mut open = 0usize;
    // The outermost parenthesis that is open.
    let mut outermost = 0u32;
    'tokens: for placed in tokens {
        match placed.token {
            Token::Open => {
                if open == 0 {
                    outermost = placed.at;
                }
                open += 1;
            }
            Token::Close => {
                if open == 0 {
                    return Some(placed.at);
                }
                open -= 1;
            }
            Token::Negation | Token::Binary(_) | Token::Term(_) => {}
        }
    }
    if open == 0 {
        return None;
    }
    Some(outermost)
}

/// The place of the first token that lacks an operand.
fn lacking(tokens: &[Placed]) -> Option<u32>
    ensures { result ≡ lacking_from false tokens.now }
{
    let mut before = false;
    let mut rest = tokens;
    'tokens: while let [placed, after @ ..] = rest {
        if lacks_operand(before, &placed.token, after) {
            return Some(placed.at);
        }
        before = ends_operand(&placed.token);
        rest = after;
    }
    None
}

fn lacks_operand(before: bool, token: &Token, after: &[Placed]) -> bool
    ensures { result ≡ lacks_operand before token.now after.now }
{
    if needs_before(token) && !before {
        return true;
    }
    needs_after(token) && !begin_operand(after)
}

fn needs_before(token: &Token) -> bool
    ensures { result ≡ needs_before token.now }
{
    match token {
        Token::Binary(_) => true,
        Token::Open | Token::Close | Token::Negation | Token::Term(_) => false,
    }
}

fn needs_after(token: &Token) -> bool
    ensures { result ≡ needs_after token.now }
{
    match token {
        Token::Open | Token::Negation | Token::Binary(_) => true,
        Token::Close | Token::Term(_) => false,
    }
}

fn begins_operand(token: &Token) -> bool
    ensures { result ≡ begins_operand token.now }
{
    match token {
        Token::Open | Token::Negation | Token::Term(_) => true,
        Token::Close | Token::Binary(_) => false,
    }
}

fn ends_operand(token: &Token) -> bool
    ensures { result ≡ ends_operand token.now }
{
    match token {
        Token::Close | Token::Term(_) => true,
        Token::Open | Token::Negation | Token::Binary(_) => false,
    }
}

fn begin_operand(tokens: &[Placed]) -> bool
    ensures { result ≡ begin_operand tokens.now }
{
    match tokens {
        [] => false,
        [placed, ..] => begins_operand(&placed.token),
    }
}
