//! Tokens read one by one into the tree of a query, for `parse`. It takes no recursion: levels are on a stack.

ghost use Rattle.std.specs.Prelude.{◌≡◌, [], IfOk, OnOk};
ghost use Rattle.nm_query.specs.Levels.{after, closed, read_after, tree_of};

use crate::Query;
use crate::level::Level;
use crate::stack::Stack;
use crate::token::{Item, Placed, TermKind, Token};
use nm_base::{Many, NoMemory};
use std::alloc::Global;
use std::mem;

/// What was read: the level of the innermost parenthesis that is open, and those round it.
#[derive(Drop)]
pub(crate) struct Reading {
    pub inner: Level,
    pub outer: Stack<Level>,
}

/// What the tokens ask.
pub(crate) fn tree(alloc: Global, tokens: Many<Placed>) -> Result<Query, NoMemory>
    ensures { IfOk result (λ query. query ≡ tree_of tokens) }
{
    let mut reading = Reading {
        inner: Level::blank(alloc),
        outer: Stack::new(alloc),
    };
    'tokens: for placed in tokens.into_vec() {
        let Placed { at: _, token } = placed;
        reading.take(alloc, token)?;
    }
    let Reading { inner, outer: _ } = reading;
    inner.into_query(alloc)
}

impl Reading {
    fn take(&mut self, alloc: Global, token: Token) -> Result<(), NoMemory>
        ensures { OnOk result (self.new ≡ after token self.old) }
    {
        match token {
            Token::Open => self.open(alloc),
            Token::Close => self.close(alloc),
            Token::Negation => self.inner.negate(),
            Token::Binary(operator) => self.inner.take_operator(alloc, operator),
            Token::Term(item) => self.inner.take(alloc, item),
        }
    }

    fn open(&mut self, alloc: Global) -> Result<(), NoMemory>
        ensures { OnOk result (self.new ≡ after Token.Open self.old) }
    {
        let outer = mem::replace(&mut self.inner, Level::blank(alloc));
        self.outer.push(outer)
    }

    fn close(&mut self, alloc: Global) -> Result<(), NoMemory>
        ensures { OnOk result (self.new ≡ closed self.old.inner self.old.outer) }
    {
        let Some(outer) = self.outer.pop() else {
            return Ok(());
        };
        let inner = mem::replace(&mut self.inner, outer);
        let query = inner.into_query(alloc)?;
        self.inner.take(
            alloc,
            Item {
                kind: TermKind::Other,
                query,
            },
        )
    }
}
