//! Queries that an operator joins, for `group` and `level`.

ghost use Rattle.std.specs.Prelude.{◌≡◌};
ghost use Rattle.nm_query.specs.Groups.{joined, list_of};

use crate::Query;
use crate::token::Operator;
use nm_base::Many;

/// The queries joined by the operator; one alone stays as it is, and none ask nothing.
pub(crate) fn joined(operator: Operator, queries: Many<Query>) -> Query
    ensures { result ≡ joined operator queries }
{
    if queries.len() > 1 {
        return list_of(operator, queries);
    }
    let mut queries = queries;
    match queries.pop() {
        Some(query) => query,
        None => Query::All,
    }
}

fn list_of(operator: Operator, queries: Many<Query>) -> Query
    ensures { result ≡ list_of operator queries }
{
    match operator {
        Operator::Conjunction => Query::And(queries),
        Operator::Exclusion => Query::Xor(queries),
        Operator::Disjunction => Query::Or(queries),
    }
}
