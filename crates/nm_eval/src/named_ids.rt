//! The ids that a query names: no other message can pass, so `matches` looks these up and tests no other.

ghost use Rattle.std.specs.Prelude.{◌≡◌, map, IfOk};
ghost use Rattle.nm_eval.specs.NamedIds.{all_some, first_some, named_id, named_ids};

use nm_base::{Copies, Many, MessageId, NoMemory, Text};
use nm_query::Query;
use std::alloc::Global;

/// The ids of a term `id:`, of the first query in an `and` that names ids, or of all queries in an `or` where each does.
#[cycle(naming)]
pub(crate) fn named_ids(alloc: Global, query: &Query) -> Result<Option<Many<MessageId>>, NoMemory>
    ensures { IfOk result (λ named. named ≡ named_ids query.now) }
{
    match query {
        Query::Id(text) => id_of(alloc, text),
        Query::And(queries) => first_named(alloc, queries.as_slice()),
        Query::Or(queries) => all_named(alloc, queries.as_slice()),
        _ => Ok(None),
    }
}

#[cycle(naming)]
fn first_named(alloc: Global, queries: &[Query]) -> Result<Option<Many<MessageId>>, NoMemory>
    ensures { IfOk result (λ named. named ≡ first_some (map named_ids queries.now)) }
{
    'queries: for query in queries {
        if let Some(named) = named_ids(alloc, query)? {
            return Ok(Some(named));
        }
    }
    Ok(None)
}

#[cycle(naming)]
fn all_named(alloc: Global, queries: &[Query]) -> Result<Option<Many<MessageId>>, NoMemory>
    ensures { IfOk result (λ named. named ≡ all_some (map named_ids queries.now)) }
{
    let mut all = Vec::new(alloc);
    'queries: for query in queries {
        let Some(named) = named_ids(alloc, query)? else {
            return Ok(None);
        };
        all.append(&mut named.into_vec())?;
    }
    Ok(Some(Many::from_vec(all)))
}

/// The id of a term. An index as a contract sees it may have any text as an id, so what is no id names none.
fn id_of(alloc: Global, text: &Text) -> Result<Option<Many<MessageId>>, NoMemory>
    ensures { IfOk result (λ named. named ≡ named_id text.now) }
{
    match MessageId::new(text.copy()?) {
        Ok(id) => {
            let mut named = Many::new(alloc);
            named.push(id)?;
            Ok(Some(named))
        }
        Err(_) => Ok(None),
    }
}
