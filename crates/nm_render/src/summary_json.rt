//! The summaries of the threads that a search finds, as a JSON array of objects, for `search_reply`.

ghost use Rattle.std.specs.Prelude.{◌≡◌, map, IfOk, OnOk};
ghost use Rattle.serde_json.specs.Data.{array, put as with_member, string};
ghost use Rattle.serde_json.specs.View.{items_of, members_view, view};
ghost use Rattle.nm_model_answer.specs.Search.{part_asked, threads_of};
ghost use Rattle.nm_model_answer.specs.Summary.{members_of, summary_by, summary_of};
ghost use Rattle.nm_model_answer.specs.SummaryJson.{summaries_json};
ghost use Rattle.nm_render.specs.Groups.{listed};
ghost use Rattle.nm_render.specs.ReadBack.{ReadsBack};
ghost use Rattle.nm_render.specs.SummaryData.{summary_data, with_mail, with_numbers, HasTexts};

use crate::groups::{Groups, groups_of};
use crate::items::{texts_of_tags, thread_digits};
use crate::lists::threads_asked;
use crate::summary::thread_summary;
use crate::text_lists::{array_text, strings};
use nm_base::{Many, MessageId, NoMemory, SearchAsk};
use nm_model_answer::ThreadSummary;
use nm_state::Snapshot;
use nm_text::as_text;
use serde_json::{Map, Value, put};
use std::alloc::Global;

/// The threads of messages that are in order, as an array of objects, and LF. The library reads the array as these objects.
pub(crate) fn summaries_json(
    alloc: Global,
    snapshot: &Snapshot,
    ask: &SearchAsk,
    ids: &[MessageId],
) -> Result<Many<u8>, NoMemory>
    ensures text { IfOk result (λ text. text ≡ summaries_json ask.now snapshot.now ids.now) }
    ensures reads_back { IfOk result (λ text. ReadsBack (map summary_data (map (summary_of snapshot.now ids.now) (part_asked ask.now (threads_of snapshot.now ids.now)))) text) }
{
    let asked = threads_asked(alloc, snapshot, ask, ids)?;
    let names = asked.as_slice();
    let matched = groups_of(alloc, snapshot, names, ids)?;
    let objects = objects_of(alloc, snapshot, names, &matched)?;
    let mut json = array_text(alloc, objects)?;
    json.push(b'\n')?;
    Ok(json)
}

/// The objects of threads, by the messages under their names that match, in order.
fn objects_of(
    alloc: Global,
    snapshot: &Snapshot,
    names: &[u64],
    matched: &Groups,
) -> Result<Vec<Value>, NoMemory>
    ensures { IfOk result (λ objects. map view objects.items ≡ map (λ name. summary_data (summary_by snapshot.now name (listed matched.now name) (members_of snapshot.now name))) names.now) }
{
    let mut objects = Vec::new(alloc);
    'names: for name in names {
        objects.push(thread_object(alloc, snapshot, *name, matched)?)?;
    }
    Ok(objects)
}

fn thread_object(
    alloc: Global,
    snapshot: &Snapshot,
    name: u64,
    matched: &Groups,
) -> Result<Value, NoMemory>
    ensures { IfOk result (λ object. view object ≡ summary_data (summary_by snapshot.now name (listed matched.now name) (members_of snapshot.now name))) }
{
    let summary = thread_summary(alloc, snapshot, name, matched)?;
    let object = object_of(alloc, &summary)?;
    Ok(object)
}

/// The summary of a thread as an object.
fn object_of(alloc: Global, summary: &ThreadSummary) -> Result<Value, NoMemory>
    requires texts { HasTexts summary.now }
    ensures { IfOk result (λ object. view object ≡ summary_data summary.now) }
{
    let mut members = Map::new(alloc);
    put_mail(alloc, &mut members, summary)?;
    put_numbers(alloc, &mut members, summary)?;
    Ok(Value::Object(members))
}

fn put_mail(
    alloc: Global,
    members: &mut Map<String, Value>,
    summary: &ThreadSummary,
) -> Result<(), NoMemory>
    requires texts { HasTexts summary.now }
    ensures { OnOk result (members_view members.new.entries ≡ with_mail summary.now (members_view members.old.entries)) }
{
    let thread = thread_digits(alloc, summary.thread)?;
    let tags = tags_array(alloc, summary)?;
    put_text(
        alloc,
        members,
        "authors",
        as_text(summary.authors.as_slice()),
    )?;
    put_text(
        alloc,
        members,
        "subject",
        as_text(summary.subject.as_slice()),
    )?;
    put(members, alloc, "tags", tags)?;
    put_text(alloc, members, "thread", thread.as_str())?;
    Ok(())
}

fn put_numbers(
    alloc: Global,
    members: &mut Map<String, Value>,
    summary: &ThreadSummary,
) -> Result<(), NoMemory>
    ensures { OnOk result (members_view members.new.entries ≡ with_numbers summary.now (members_view members.old.entries)) }
{
    put(members, alloc, "files", Value::from(summary.files))?;
    put(members, alloc, "matched", Value::from(summary.matched))?;
    put(members, alloc, "timestamp", Value::from(summary.date))?;
    put(members, alloc, "total", Value::from(summary.total))?;
    Ok(())
}

fn put_text(
    alloc: Global,
    members: &mut Map<String, Value>,
    name: &str,
    text: &str,
) -> Result<(), NoMemory>
    ensures { OnOk result (members_view members.new.entries ≡ with_member name.now (string text.now) (members_view members.old.entries)) }
{
    let text = Value::try_from_str(alloc, text)?;
    put(members, alloc, name, text)?;
    Ok(())
}

fn tags_array(alloc: Global, summary: &ThreadSummary) -> Result<Value, NoMemory>
    ensures { IfOk result (λ tags. view tags ≡ array (items_of (map string summary.now.tags))) }
{
    let tags = summary.tags.to_list(alloc)?;
    let texts = texts_of_tags(alloc, tags.as_slice())?;
    let strings = strings(alloc, texts.as_slice())?;
    Ok(Value::Array(strings))
}
