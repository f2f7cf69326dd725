//! A query as `matches` asks it of many messages: what is the same for all of them is worked out once. Ends of dates
//! become seconds, and in a list the quick queries come first.

ghost use Rattle.std.specs.Prelude.{◌≡◌, ℤ, map, IfOk, IsTrue};
ghost use Rattle.nm_dates.specs.Seconds.{IsMoment, is_end, seconds_of};
ghost use Rattle.nm_model_answer.specs.Test.{is_from, is_to, passes};
ghost use Rattle.nm_model_answer.specs.View.{View};

use crate::quick::quick_first;
use nm_base::{Boxed, Many, NoMemory};
use nm_dates::{End, first_second, is_end, last_second};
use nm_model_answer::a_tree_passes_as_its_queries_do;
use nm_query::Query;
use std::alloc::Global;

/// A query that each message passes as it passes this one, for less work a message.
#[cycle(preparing)]
pub(crate) fn prepared(alloc: Global, query: &Query, moment: i64) -> Result<Query, NoMemory>
    requires { IsMoment moment }
    ensures { IfOk result (λ asked. (message : View) → passes asked message moment ≡ passes query.now message moment) }
{
    a_tree_passes_as_its_queries_do();
    match query {
        Query::Dates { from, to } => Ok(Query::Dates {
            from: first_of(*from, moment),
            to: last_of(*to, moment),
        }),
        Query::Not(query) => {
            let asked = prepared(alloc, query.get(), moment)?;
            Ok(Query::Not(Boxed::new(alloc, asked)?))
        }
        Query::And(queries) => {
            let asked = each_prepared(alloc, queries.as_slice(), moment)?;
            Ok(Query::And(quick_first(alloc, asked)?))
        }
        Query::Or(queries) => {
            let asked = each_prepared(alloc, queries.as_slice(), moment)?;
            Ok(Query::Or(quick_first(alloc, asked)?))
        }
        Query::Xor(queries) => Ok(Query::Xor(each_prepared(alloc, queries.as_slice(), moment)?)),
        _ => query.copy(alloc),
    }
}

#[cycle(preparing)]
fn each_prepared(alloc: Global, queries: &[Query], moment: i64) -> Result<Many<Query>, NoMemory>
    requires { IsMoment moment }
    ensures { IfOk result (λ asked. (message : View) → map (λ query. passes query message moment) asked ≡ map (λ query. passes query message moment) queries.now) }
{
    let mut asked = Many::new(alloc);
    'queries: for query in queries {
        asked.push(prepared(alloc, query, moment)?)?;
    }
    Ok(asked)
}

/// The end as a second that it begins with.
fn first_of(end: Option<End>, moment: i64) -> Option<End>
    requires { IsMoment moment }
    ensures { (date : ℤ) → is_from result moment date ≡ is_from end moment date }
{
    let Some(end) = end else {
        return None;
    };
    if !is_end(end) {
        return Some(end);
    }
    Some(as_first(end, moment))
}

fn as_first(end: End, moment: i64) -> End
    requires end { IsTrue (is_end end) }
    requires moment { IsMoment moment }
    ensures end { IsTrue (is_end result) }
    ensures first { (seconds_of result moment).first ≡ (seconds_of end moment).first }
{
    let second = End::Second(first_second(end, moment));
    // Where the second is no end, or does not represent itself, the end stays as it is.
    if !is_end(second) {
        return end;
    }
    if first_second(second, moment) != first_second(end, moment) {
        return end;
    }
    second
}

/// The end as a second that it ends with.
fn last_of(end: Option<End>, moment: i64) -> Option<End>
    requires { IsMoment moment }
    ensures { (date : ℤ) → is_to result moment date ≡ is_to end moment date }
{
    let Some(end) = end else {
        return None;
    };
    if !is_end(end) {
        return Some(end);
    }
    Some(as_last(end, moment))
}

fn as_last(end: End, moment: i64) -> End
    requires end { IsTrue (is_end end) }
    requires moment { IsMoment moment }
    ensures end { IsTrue (is_end result) }
    ensures last { (seconds_of result moment).last ≡ (seconds_of end moment).last }
{
    let second = End::Second(last_second(end, moment));
    if !is_end(second) {
        return end;
    }
    if last_second(second, moment) != last_second(end, moment) {
        return end;
    }
    second
}
