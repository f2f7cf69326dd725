//! What was read inside one parenthesis, or outside of all, for `tree_reader`.

ghost use Rattle.std.specs.Prelude.{◌≡◌, ◌+◌, IfOk, OnOk};
ghost use Rattle.nm_query.specs.Levels.{after_operator, blank, end_conjunction, end_exclusion, end_group, level_query, negated, operand, with_item};

use crate::Query;
use crate::group::group_query;
use crate::joined::joined;
use crate::token::{Item, Operator, TermKind};
use nm_base::{Boxed, Many, NoMemory};
use std::alloc::Global;
use std::mem;

/// The queries that have ended, each in the list of the operator that joins it with what follows.
#[derive(Drop)]
pub(crate) struct Level {
    /// What `or` joins.
    pub disjuncts: Many<Query>,
    /// What `xor` joins, after the last `or`.
    pub exclusives: Many<Query>,
    /// What `and` joins, after the last `xor` or `or`.
    pub conjuncts: Many<Query>,
    /// The group that has not ended.
    pub items: Many<Item>,
    /// How many `not` and `-` wait for their operand.
    pub negations: u32,
}

impl Level {
    pub fn blank(alloc: Global) -> Level
        ensures { result ≡ blank }
    {
        Level {
            disjuncts: Many::new(alloc),
            exclusives: Many::new(alloc),
            conjuncts: Many::new(alloc),
            items: Many::new(alloc),
            negations: 0,
        }
    }

    /// An operand has ended.
    pub fn take(&mut self, alloc: Global, item: Item) -> Result<(), NoMemory>
        ensures { OnOk result (self.new ≡ with_item item self.old) }
    {
        let item = operand(alloc, self.negations, item)?;
        self.items.push(item)?;
        self.negations = 0;
        Ok(())
    }

    /// A `not` or `-`. A text has fewer of them than the number can count: one more is reported as out of memory.
    pub fn negate(&mut self) -> Result<(), NoMemory>
        ensures { OnOk result (self.new ≡ record self.old { negations = self.old.negations + 1 }) }
    {
        match self.negations.checked_add(1) {
            Some(negations) => {
                self.negations = negations;
                Ok(())
            }
            None => Err(NoMemory),
        }
    }

    /// An operator ends what binds tighter than it.
    pub fn take_operator(&mut self, alloc: Global, operator: Operator) -> Result<(), NoMemory>
        ensures { OnOk result (self.new ≡ after_operator operator self.old) }
    {
        match operator {
            Operator::Conjunction => self.end_group(alloc),
            Operator::Exclusion => self.end_conjunction(alloc),
            Operator::Disjunction => self.end_exclusion(alloc),
        }
    }

    fn end_group(&mut self, alloc: Global) -> Result<(), NoMemory>
        ensures { OnOk result (self.new ≡ end_group self.old) }
    {
        let items = mem::replace(&mut self.items, Many::new(alloc));
        let query = group_query(alloc, items)?;
        self.conjuncts.push(query)
    }

    fn end_conjunction(&mut self, alloc: Global) -> Result<(), NoMemory>
        ensures { OnOk result (self.new ≡ end_conjunction self.old) }
    {
        self.end_group(alloc)?;
        let conjuncts = mem::replace(&mut self.conjuncts, Many::new(alloc));
        self.exclusives
            .push(joined(Operator::Conjunction, conjuncts))
    }

    fn end_exclusion(&mut self, alloc: Global) -> Result<(), NoMemory>
        ensures { OnOk result (self.new ≡ end_exclusion self.old) }
    {
        self.end_conjunction(alloc)?;
        let exclusives = mem::replace(&mut self.exclusives, Many::new(alloc));
        self.disjuncts.push(joined(Operator::Exclusion, exclusives))
    }

    /// What all of it asks.
    pub fn into_query(self, alloc: Global) -> Result<Query, NoMemory>
        ensures { IfOk result (λ query. query ≡ level_query self) }
    {
        let mut level = self;
        level.end_exclusion(alloc)?;
        let Level { disjuncts, .. } = level;
        Ok(joined(Operator::Disjunction, disjuncts))
    }
}

/// The operand with what negates it; a negated one is joined with no others by Or.
fn operand(alloc: Global, negations: u32, item: Item) -> Result<Item, NoMemory>
    ensures { IfOk result (λ made. made ≡ operand negations item) }
{
    if negations == 0 {
        return Ok(item);
    }
    let Item { kind: _, query } = item;
    let query = negated(alloc, negations, query)?;
    Ok(Item {
        kind: TermKind::Other,
        query,
    })
}

fn negated(alloc: Global, negations: u32, query: Query) -> Result<Query, NoMemory>
    ensures { IfOk result (λ answer. answer ≡ negated negations query) }
{
    let mut rest = negations;
    let mut query = query;
    'negations: while 0 < rest {
        query = Query::Not(Boxed::new(alloc, query)?);
        rest -= 1;
    }
    Ok(query)
}
