//! The queries that are side by side: terms of one kind are joined by Or, and all of them by And, for `level`.

ghost use Rattle.std.specs.Prelude.{◌≡◌, IfOk, OnOk, fold, map};
ghost use Rattle.nm_query.specs.Groups.{group_query, grouped, is_of, kind_number, queries_of, query_of, with_joined};
ghost use Rattle.nm_query.specs.GroupTerms.{part, rejoined, unparted};

use crate::Query;
use crate::joined::joined;
use crate::token::{Item, Operator, TermKind};
use nm_base::{Many, NoMemory};
use std::alloc::Global;

/// What a group asks.
pub(crate) fn group_query(alloc: Global, items: Many<Item>) -> Result<Query, NoMemory>
    ensures { IfOk result (λ query. query ≡ group_query items) }
{
    let items = grouped(alloc, items)?;
    let queries = queries(alloc, items)?;
    Ok(joined(Operator::Conjunction, queries))
}

fn queries(alloc: Global, items: Many<Item>) -> Result<Many<Query>, NoMemory>
    ensures { IfOk result (λ queries. queries ≡ map query_of items) }
{
    let mut queries = Many::new(alloc);
    'items: for item in items.into_vec() {
        let Item { kind: _, query } = item;
        queries.push(query)?;
    }
    Ok(queries)
}

fn grouped(alloc: Global, items: Many<Item>) -> Result<Many<Item>, NoMemory>
    ensures { IfOk result (λ joined. joined ≡ grouped items) }
{
    let items = with_joined(alloc, TermKind::Tag, items)?;
    let items = with_joined(alloc, TermKind::Id, items)?;
    let items = with_joined(alloc, TermKind::Thread, items)?;
    let items = with_joined(alloc, TermKind::Folder, items)?;
    with_joined(alloc, TermKind::Path, items)
}

/// A group as one kind of terms parts it: what comes before the first of them, these terms, and what else comes after
/// it.
#[derive(Drop)]
pub(crate) struct Parted {
    pub before: Many<Item>,
    pub found: Many<Query>,
    pub after: Many<Item>,
}

/// The items with all terms of a kind in one Or, at the place of the first of them.
#[tactic(auto, using(crate::proofs::PartLemmas::rejoined_group))]
fn with_joined(alloc: Global, kind: TermKind, items: Many<Item>) -> Result<Many<Item>, NoMemory>
    ensures { IfOk result (λ joined. joined ≡ with_joined kind items) }
{
    let parted = part_all(alloc, kind, items)?;
    parted.into_items()
}

fn part_all(alloc: Global, kind: TermKind, items: Many<Item>) -> Result<Parted, NoMemory>
    ensures { IfOk result (λ parted. parted ≡ fold (part kind) unparted items) }
{
    let mut parted = Parted {
        before: Many::new(alloc),
        found: Many::new(alloc),
        after: Many::new(alloc),
    };
    'items: for item in items.into_vec() {
        parted.take(kind, item)?;
    }
    Ok(parted)
}

impl Parted {
    fn take(&mut self, kind: TermKind, item: Item) -> Result<(), NoMemory>
        ensures { OnOk result (self.new ≡ part kind self.old item) }
    {
        if is_of(kind, &item) {
            let Item { kind: _, query } = item;
            return self.found.push(query);
        }
        if self.found.is_empty() {
            return self.before.push(item);
        }
        self.after.push(item)
    }

    fn into_items(self) -> Result<Many<Item>, NoMemory>
        ensures { IfOk result (λ items. items ≡ rejoined self.before self.found self.after) }
    {
        let Parted {
            before,
            found,
            after,
        } = self;
        if found.is_empty() {
            return Ok(before);
        }
        let mut items = before.into_vec();
        items.push(Item {
            kind: TermKind::Other,
            query: joined(Operator::Disjunction, found),
        })?;
        items.append(&mut after.into_vec())?;
        Ok(Many::from_vec(items))
    }
}

fn is_of(kind: TermKind, item: &Item) -> bool
    ensures { result ≡ is_of kind item.now }
{
    kind_number(item.kind) == kind_number(kind)
}

fn kind_number(kind: TermKind) -> u8
    ensures { result ≡ kind_number kind }
{
    match kind {
        TermKind::Tag => 0,
        TermKind::Id => 1,
        TermKind::Thread => 2,
        TermKind::Folder => 3,
        TermKind::Path => 4,
        TermKind::Other => 5,
    }
}
