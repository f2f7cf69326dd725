//! A text cut into tokens, for `parse`.

ghost use Rattle.std.specs.Prelude.{◌≡◌, ◌≤◌, ◌++◌, [], IfOk, OnOk, length};
ghost use Rattle.nm_base.specs.Limits.{max_query_bytes};
ghost use Rattle.nm_query.specs.Tokens.{after_token, tokens_of};

use crate::QueryError;
use crate::lexeme::lexeme_at;
use crate::token::{Lexeme, Placed, Token};
use nm_base::{Many, NoMemory};
use std::alloc::Global;

/// The tokens of a query, each with its place, or the first fault of one.
pub(crate) fn tokens(
    alloc: Global,
    text: &str,
) -> Result<Result<Many<Placed>, QueryError>, NoMemory>
    requires { length text.now ≤ max_query_bytes }
    ensures { IfOk result (λ tokens. tokens ≡ tokens_of text.now) }
{
    let mut tokens = Many::new(alloc);
    let mut at = 0;
    let mut rest = text;
    'lexemes: while !rest.is_empty() {
        match lexeme_at(alloc, at, rest)? {
            Ok(lexeme) => {
                let Lexeme { token, len } = lexeme;
                push_token(&mut tokens, at, token)?;
                at += len as u32;
                rest = &rest[len..];
            }
            Err(refusal) => return Ok(Err(refusal)),
        }
    }
    Ok(Ok(tokens))
}

fn push_token(tokens: &mut Many<Placed>, at: u32, token: Option<Token>) -> Result<(), NoMemory>
    ensures { OnOk result (tokens.new ≡ tokens.old ++ after_token at token []) }
{
    match token {
        Some(token) => tokens.push(Placed { at, token }),
        None => Ok(()),
    }
}
