//! How deep a query nests, for `parse`: no tree is made of one that is too deep.

ghost use Rattle.std.specs.Prelude.{◌≡◌, ◌∷◌, ◌≤◌, IfOk, OnOk};
ghost use Rattle.nm_query.specs.Nesting.{IsCounted, after_close, after_negation, after_term, is_too_deep, negations_after};

use crate::stack::Stack;
use crate::token::{Placed, Token};
use nm_base::NoMemory;
use std::alloc::Global;

const MAX_DEPTH: u32 = 64;

/// The negations that have not ended, and how many levels there are with the open parentheses.
#[derive(Drop)]
pub(crate) struct Nesting {
    /// The negations inside the innermost parenthesis.
    pub inner: u32,
    /// Those outside of it, by parenthesis.
    pub outer: Stack<u32>,
    pub depth: u32,
}

/// Whether some place is deeper than 64.
pub(crate) fn is_too_deep(alloc: Global, tokens: &[Placed]) -> Result<bool, NoMemory>
    ensures { IfOk result (λ deep. deep ≡ is_too_deep tokens.now) }
{
    let mut nesting = Nesting {
        inner: 0,
        outer: Stack::new(alloc),
        depth: 0,
    };
    'tokens: for placed in tokens {
        nesting.take(&placed.token)?;
        if nesting.depth > MAX_DEPTH {
            return Ok(true);
        }
    }
    Ok(false)
}

impl Nesting {
    fn take(&mut self, token: &Token) -> Result<(), NoMemory>
        requires counted { IsCounted self.old }
        requires few { self.old.depth ≤ 64 }
        ensures counted { OnOk result (IsCounted self.new) }
        ensures negations { OnOk result (self.new.inner ∷ self.new.outer ≡ negations_after (self.old.inner ∷ self.old.outer) token.now) }
    {
        match token {
            Token::Open => self.open(),
            Token::Close => {
                self.close();
                Ok(())
            }
            Token::Negation => {
                self.inner += 1;
                self.depth += 1;
                Ok(())
            }
            Token::Binary(_) => Ok(()),
            Token::Term(_) => {
                self.end_negations();
                Ok(())
            }
        }
    }

    fn open(&mut self) -> Result<(), NoMemory>
        requires counted { IsCounted self.old }
        requires few { self.old.depth ≤ 64 }
        ensures counted { OnOk result (IsCounted self.new) }
        ensures negations { OnOk result (self.new.inner ∷ self.new.outer ≡ 0 ∷ self.old.inner ∷ self.old.outer) }
    {
        self.outer.push(self.inner)?;
        self.inner = 0;
        self.depth += 1;
        Ok(())
    }

    /// A parenthesis that closes ends the negations before it. A `)` that closes nothing is passed over.
    fn close(&mut self)
        requires counted { IsCounted self.old }
        requires few { self.old.depth ≤ 64 }
        ensures counted { IsCounted self.new }
        ensures negations { self.new.inner ∷ self.new.outer ≡ after_close (self.old.inner ∷ self.old.outer) }
    {
        if let Some(outer) = self.outer.pop() {
            self.depth = self.depth - self.inner - outer - 1;
            self.inner = 0;
        }
    }

    fn end_negations(&mut self)
        requires counted { IsCounted self.old }
        ensures counted { IsCounted self.new }
        ensures negations { self.new.inner ∷ self.new.outer ≡ after_term (self.old.inner ∷ self.old.outer) }
    {
        self.depth -= self.inner;
        self.inner = 0;
    }
}
