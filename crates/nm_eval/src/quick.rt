//! Queries that are answered without words, paths and types being read: in lists `prepared` puts them first.

ghost use Rattle.std.specs.Prelude.{◌≡◌, IfOk};
ghost use Rattle.std.specs.List.{list_all};
ghost use Rattle.nm_eval.specs.Quick.{is_quick, quick_first};

use nm_base::{Many, NoMemory};
use nm_query::Query;
use std::alloc::Global;

/// The quick queries of a list, and then the others, each in their order.
pub(crate) fn quick_first(alloc: Global, queries: Many<Query>) -> Result<Many<Query>, NoMemory>
    ensures { IfOk result (λ turns. turns ≡ quick_first queries) }
{
    let mut quick = Vec::new(alloc);
    let mut others = Vec::new(alloc);
    'queries: for query in queries.into_vec() {
        if is_quick(&query) {
            quick.push(query)?;
        } else {
            others.push(query)?;
        }
    }
    quick.append(&mut others)?;
    Ok(Many::from_vec(quick))
}

/// Says whether the query is quick, with all that it joins.
#[cycle(quickness)]
fn is_quick(query: &Query) -> bool
    ensures { result ≡ is_quick query.now }
{
    match query {
        Query::All => true,
        Query::Tag(_) => true,
        Query::Id(_) => true,
        Query::Thread(_) => true,
        Query::Dates { from: _, to: _ } => true,
        Query::Not(query) => is_quick(query.get()),
        Query::And(queries) => all_quick(queries.as_slice()),
        Query::Or(queries) => all_quick(queries.as_slice()),
        Query::Xor(queries) => all_quick(queries.as_slice()),
        _ => false,
    }
}

#[cycle(quickness)]
fn all_quick(queries: &[Query]) -> bool
    ensures { result ≡ list_all is_quick queries.now }
{
    'queries: for query in queries {
        if !is_quick(query) {
            return false;
        }
    }
    true
}
