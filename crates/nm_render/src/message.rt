//! Messages as `show` prints them, for `show_text`: the lines of their fields, and their bodies.

ghost use Rattle.std.specs.Prelude.{◌≡◌, ◌++◌, codes, map, IfOk, OnOk};
ghost use Rattle.nm_model_answer.specs.Json.{joined};
ghost use Rattle.nm_model_answer.specs.Search.{item_line, lines_text, message_date};
ghost use Rattle.nm_model_answer.specs.Show.{fields_text, head_text, lead_from, mailboxes_text, marks_text, message_text, messages_text, names_text};
ghost use Rattle.nm_model_answer.specs.Summary.{lead_subject, shown, shown_day};
ghost use Rattle.nm_model_answer.specs.View.{files_of, tags_of};

use crate::body::push_given;
use crate::items::texts_of_tags;
use crate::mailboxes::{lead_from, mailboxes_text};
use crate::order::message_date;
use crate::shown::{joined, shown, shown_day};
use crate::summary::lead_subject;
use nm_base::{Many, MessageId, NoMemory, Text};
use nm_maildir::Given;
use nm_state::Snapshot;
use std::alloc::Global;

/// The messages one after the other, each with what the folder gave for it.
pub(crate) fn messages_text(
    alloc: Global,
    snapshot: &Snapshot,
    ids: &[MessageId],
    given: &[Given],
) -> Result<Many<u8>, NoMemory>
    ensures { IfOk result (λ text. text ≡ messages_text snapshot.now ids.now given.now) }
{
    let mut text = Many::new(alloc);
    let mut rest = ids;
    let mut further = given;
    'messages: loop {
        let Some((id, more)) = rest.split_first() else {
            return Ok(text);
        };
        let Some((noted, after)) = further.split_first() else {
            return Ok(text);
        };
        push_message(alloc, &mut text, snapshot, id, noted)?;
        rest = more;
        further = after;
    }
}

fn push_message(
    alloc: Global,
    text: &mut Many<u8>,
    snapshot: &Snapshot,
    id: &MessageId,
    given: &Given,
) -> Result<(), NoMemory>
    ensures { OnOk result (text.new ≡ text.old ++ message_text snapshot.now id.now given.now) }
{
    push_head(alloc, text, snapshot, id)?;
    push_given(alloc, text, given)?;
    text.extend_from_slice(b"end\n")?;
    Ok(())
}

/// The lines before the body.
fn push_head(
    alloc: Global,
    text: &mut Many<u8>,
    snapshot: &Snapshot,
    id: &MessageId,
) -> Result<(), NoMemory>
    ensures { OnOk result (text.new ≡ text.old ++ head_text snapshot.now id.now) }
{
    push_names(text, snapshot, id)?;
    push_fields(alloc, text, snapshot, id)?;
    push_marks(alloc, text, snapshot, id)?;
    text.extend_from_slice(b"\n")?;
    Ok(())
}

fn push_names(text: &mut Many<u8>, snapshot: &Snapshot, id: &MessageId) -> Result<(), NoMemory>
    ensures { OnOk result (text.new ≡ text.old ++ names_text snapshot.now id.now) }
{
    push_line(text, b"message id:", id.text().as_bytes())?;
    push_files(text, snapshot, id)?;
    Ok(())
}

/// A line for each file of the message, in order of arrival.
fn push_files(text: &mut Many<u8>, snapshot: &Snapshot, id: &MessageId) -> Result<(), NoMemory>
    ensures { OnOk result (text.new ≡ text.old ++ lines_text (codes "file ") (map (λ file. file.0) (files_of snapshot.now id.now))) }
{
    let Some(mut rest) = snapshot.files(id) else {
        return Ok(());
    };
    'files: while let Some((path, _)) = rest.next() {
        push_line(text, b"file ", path.text().as_bytes())?;
    }
    Ok(())
}

fn push_fields(
    alloc: Global,
    text: &mut Many<u8>,
    snapshot: &Snapshot,
    id: &MessageId,
) -> Result<(), NoMemory>
    ensures { OnOk result (text.new ≡ text.old ++ fields_text snapshot.now id.now) }
{
    push_from(alloc, text, snapshot, id)?;
    let subject = lead_subject(snapshot, id, 0);
    push_shown(alloc, text, b"subject ", subject.as_bytes())?;
    Ok(())
}

fn push_from(
    alloc: Global,
    text: &mut Many<u8>,
    snapshot: &Snapshot,
    id: &MessageId,
) -> Result<(), NoMemory>
    ensures { OnOk result (text.new ≡ text.old ++ item_line (codes "from ") (shown (mailboxes_text (lead_from (files_of snapshot.now id.now))))) }
{
    let from = mailboxes_text(alloc, lead_from(snapshot, id))?;
    push_shown(alloc, text, b"from ", from.as_slice())
}

fn push_marks(
    alloc: Global,
    text: &mut Many<u8>,
    snapshot: &Snapshot,
    id: &MessageId,
) -> Result<(), NoMemory>
    ensures { OnOk result (text.new ≡ text.old ++ marks_text snapshot.now id.now) }
{
    push_date(text, message_date(snapshot, id))?;
    push_tags(alloc, text, snapshot, id)?;
    Ok(())
}

fn push_date(text: &mut Many<u8>, date: i64) -> Result<(), NoMemory>
    ensures { OnOk result (text.new ≡ text.old ++ item_line (codes "date ") (shown_day date)) }
{
    let day = shown_day(date);
    push_line(text, b"date ", &day)?;
    Ok(())
}

fn push_tags(
    alloc: Global,
    text: &mut Many<u8>,
    snapshot: &Snapshot,
    id: &MessageId,
) -> Result<(), NoMemory>
    ensures { OnOk result (text.new ≡ text.old ++ item_line (codes "tags ") (joined (codes " ") (tags_of snapshot.now id.now))) }
{
    let tags = tags_of(alloc, snapshot, id)?;
    let line = joined(alloc, " ", tags.as_slice())?;
    push_line(text, b"tags ", line.as_bytes())
}

/// The tags of the message, in byte order.
fn tags_of(alloc: Global, snapshot: &Snapshot, id: &MessageId) -> Result<Many<Text>, NoMemory>
    ensures { IfOk result (λ texts. texts ≡ tags_of snapshot.now id.now) }
{
    let Some(tags) = snapshot.tags(id) else {
        return Ok(Many::new(alloc));
    };
    let list = tags.to_list(alloc)?;
    texts_of_tags(alloc, list.as_slice())
}

/// A line with its control characters as spaces.
fn push_shown(
    alloc: Global,
    text: &mut Many<u8>,
    before: &[u8],
    line: &[u8],
) -> Result<(), NoMemory>
    ensures { OnOk result (text.new ≡ text.old ++ item_line before.now (shown line.now)) }
{
    let line = shown(alloc, line)?;
    push_line(text, before, line.as_slice())
}

fn push_line(text: &mut Many<u8>, before: &[u8], line: &[u8]) -> Result<(), NoMemory>
    ensures { OnOk result (text.new ≡ text.old ++ item_line before.now line.now) }
{
    text.extend_from_slice(before)?;
    text.extend_from_slice(line)?;
    text.extend_from_slice(b"\n")?;
    Ok(())
}
