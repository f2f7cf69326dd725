//! The tags that keep a message out, unless the query names them: `matches` finds them, and the messages that have them, once
//! a query.

ghost use Rattle.std.specs.Prelude.{◌≡◌, ◌&&◌, ℕ, List, codes, not, IfOk};
ghost use Rattle.std.specs.List.{list_any};
ghost use Rattle.nm_base.specs.Order.{has_text};
ghost use Rattle.nm_model_answer.specs.Matches.{names_tag};
ghost use Rattle.nm_model_answer.specs.View.{view_of};
ghost use Rattle.nm_eval.specs.Exclusion.{exclusion_of, is_among, leaves_out};

use crate::message::{Message, has_text};
use nm_base::{Copies, MessageId, NoMemory, Tags, TextSet};
use nm_model_answer::a_tree_names_the_tags_of_its_queries;
use nm_query::Query;
use nm_state::{Snapshot, a_snapshot_is_a_valid_index};
use std::alloc::Global;

const DELETED: &str = "deleted";

const SPAM: &str = "spam";

/// Which tags keep a message out.
#[derive(Clone, Copy)]
pub(crate) struct Exclusion {
    pub deleted: bool,
    pub spam: bool,
}

/// The tags that keep messages out of what the query finds; none where exclusion isn't asked.
pub(crate) fn find_exclusion(query: &Query, exclude: bool) -> Exclusion
    ensures { result ≡ exclusion_of query.now exclude }
{
    Exclusion {
        deleted: exclude && !names_tag(query, DELETED),
        spam: exclude && !names_tag(query, SPAM),
    }
}

/// Says whether the message has such a tag.
pub(crate) fn leaves_out(exclusion: Exclusion, message: &Message<'_>) -> bool
    ensures { result ≡ leaves_out exclusion message.now }
{
    if exclusion.deleted && message.has_tag(DELETED) {
        return true;
    }
    exclusion.spam && message.has_tag(SPAM)
}

/// The ids of the messages that have such a tag. One pass over the tags of all costs less than a look-up for each message, and
/// where no tag keeps messages out there is none.
pub(crate) fn left_out(
    alloc: Global,
    snapshot: &Snapshot,
    exclusion: Exclusion,
) -> Result<TextSet<MessageId>, NoMemory>
    ensures { IfOk result (λ ids. (id : List ℕ) → has_text ids id ≡ leaves_out exclusion (view_of snapshot.now id)) }
{
    if !exclusion.deleted && !exclusion.spam {
        return Ok(TextSet::new(alloc));
    }
    a_snapshot_is_a_valid_index(snapshot);
    let mut ids = TextSet::new(alloc);
    let mut rest = snapshot.tagged();
    'messages: while let Some((id, tags)) = rest.next() {
        if is_among(exclusion, tags) {
            ids.insert(id.copy()?)?;
        }
    }
    Ok(ids)
}

/// Says whether such a tag is among these.
fn is_among(exclusion: Exclusion, tags: &Tags) -> bool
    ensures { result ≡ is_among exclusion tags.now }
{
    if exclusion.deleted && has_text(tags, DELETED) {
        return true;
    }
    exclusion.spam && has_text(tags, SPAM)
}

/// Says whether the tag is a term of the query, wherever in it.
#[cycle(naming)]
fn names_tag(query: &Query, tag: &str) -> bool
    ensures { result ≡ names_tag query.now tag.now }
{
    a_tree_names_the_tags_of_its_queries();
    match query {
        Query::Tag(named) => tag == named.as_str(),
        Query::Not(query) => names_tag(query.get(), tag),
        Query::And(queries) => any_names(queries.as_slice(), tag),
        Query::Or(queries) => any_names(queries.as_slice(), tag),
        Query::Xor(queries) => any_names(queries.as_slice(), tag),
        _ => false,
    }
}

#[cycle(naming)]
fn any_names(queries: &[Query], tag: &str) -> bool
    ensures { result ≡ list_any (λ query. names_tag query tag.now) queries.now }
{
    'queries: for query in queries {
        if names_tag(query, tag) {
            return true;
        }
    }
    false
}
