//! The summaries of the threads that a search finds, for `search_reply`.

ghost use Rattle.std.specs.Prelude.{◌≡◌, ◌++◌, codes, IfOk, IsUtf8, OnOk};
ghost use Rattle.std.specs.Fmt.{decimal};
ghost use Rattle.std.specs.List.{flat_map};
ghost use Rattle.nm_model_answer.specs.Count.{files_of_all};
ghost use Rattle.nm_model_answer.specs.Json.{joined};
ghost use Rattle.nm_model_answer.specs.Summary.{counts_told, files_told, first_date, first_subject, lead_subject, mail_told, members_of, name_told, shown_day, subject_of, summary_by, summary_line, summary_lines, thread_told};
ghost use Rattle.nm_model_answer.specs.View.{files_of};
ghost use Rattle.nm_render.specs.Groups.{listed};
ghost use Rattle.nm_render.specs.SummaryData.{HasTexts};

use crate::authors::authors_text;
use crate::count::count_files;
use crate::groups::{Groups, groups_of};
use crate::items::{texts_of_tags, thread_digits};
use crate::lists::{others_of, tags_of_all, threads_asked};
use crate::order::date_by_hint;
use crate::shown::{bare_subject, joined, shown, shown_day};
use itoa::Buffer;
use nm_base::{Many, MessageId, NoMemory, SearchAsk};
use nm_model_answer::ThreadSummary;
use nm_state::Snapshot;
use std::alloc::Global;

/// The lines of the threads of messages that are in order.
pub(crate) fn summary_lines(
    alloc: Global,
    snapshot: &Snapshot,
    ask: &SearchAsk,
    ids: &[MessageId],
) -> Result<Many<u8>, NoMemory>
    ensures { IfOk result (λ text. text ≡ summary_lines ask.now snapshot.now ids.now) }
{
    let asked = threads_asked(alloc, snapshot, ask, ids)?;
    let names = asked.as_slice();
    let matched = groups_of(alloc, snapshot, names, ids)?;
    let lines = lines_of(alloc, snapshot, names, &matched)?;
    Ok(lines)
}

/// The lines of threads, by the messages under their names that match, in order.
fn lines_of(
    alloc: Global,
    snapshot: &Snapshot,
    names: &[u64],
    matched: &Groups,
) -> Result<Many<u8>, NoMemory>
    ensures { IfOk result (λ lines. lines ≡ flat_map (λ name. summary_line (summary_by snapshot.now name (listed matched.now name) (members_of snapshot.now name))) names.now) }
{
    let mut lines = Many::new(alloc);
    'names: for name in names {
        push_summary(alloc, &mut lines, snapshot, *name, matched)?;
    }
    Ok(lines)
}

fn push_summary(
    alloc: Global,
    lines: &mut Many<u8>,
    snapshot: &Snapshot,
    name: u64,
    matched: &Groups,
) -> Result<(), NoMemory>
    ensures { OnOk result (lines.new ≡ lines.old ++ summary_line (summary_by snapshot.now name (listed matched.now name) (members_of snapshot.now name))) }
{
    let summary = thread_summary(alloc, snapshot, name, matched)?;
    push_line(alloc, lines, &summary)?;
    Ok(())
}

/// The summary of a thread, by the messages under its name that match, in order. Of the live ones no others are looked at.
pub(crate) fn thread_summary(
    alloc: Global,
    snapshot: &Snapshot,
    name: u64,
    matched: &Groups,
) -> Result<ThreadSummary, NoMemory>
    ensures value { IfOk result (λ summary. summary ≡ summary_by snapshot.now name (listed matched.now name) (members_of snapshot.now name)) }
    ensures utf8 { IfOk result (λ summary. HasTexts summary) }
{
    let matched = listed(matched, name);
    let members = snapshot.thread_messages(name)?;
    let slot_hint = place_by_hint(snapshot, members.as_slice(), name);
    let summary = summary_by(
        alloc,
        snapshot,
        name,
        matched,
        members.as_slice(),
        slot_hint,
    )?;
    Ok(summary)
}

/// Where the messages of a thread are looked for first: where its first one is. Numbers begin at 1, and come as messages do.
fn place_by_hint(snapshot: &Snapshot, members: &[MessageId], name: u64) -> u64 {
    let guess = name.saturating_sub(1);
    let Some(first) = members.first() else {
        return guess;
    };
    match snapshot.files_by_hint(first, guess) {
        Some((behind, _)) => behind.saturating_sub(1),
        None => guess,
    }
}

/// The messages of the thread.
fn listed(groups: &Groups, name: u64) -> &[MessageId]
    ensures { result.now ≡ listed groups.now name }
{
    match groups.get(&name) {
        Some(list) => list.as_slice(),
        None => &[],
    }
}

/// The summary of a thread, by its messages that match, in order, and its live ones, which are looked for at `slot_hint` first.
fn summary_by(
    alloc: Global,
    snapshot: &Snapshot,
    name: u64,
    matched: &[MessageId],
    members: &[MessageId],
    slot_hint: u64,
) -> Result<ThreadSummary, NoMemory>
    ensures value { IfOk result (λ summary. summary ≡ summary_by snapshot.now name matched.now members.now) }
    ensures utf8 { IfOk result (λ summary. HasTexts summary) }
{
    let others = others_of(alloc, matched, members)?;
    Ok(ThreadSummary {
        thread: name,
        date: first_date(snapshot, matched, slot_hint),
        matched: matched.len() as u64,
        total: members.len() as u64,
        files: count_files(snapshot, members, slot_hint)?,
        authors: authors_text(alloc, snapshot, matched, others.as_slice(), slot_hint)?,
        subject: first_subject(alloc, snapshot, matched, slot_hint)?,
        tags: tags_of_all(alloc, snapshot, members, slot_hint)?,
    })
}

fn first_date(snapshot: &Snapshot, ids: &[MessageId], slot_hint: u64) -> i64
    ensures { result ≡ first_date snapshot.now ids.now }
{
    match ids.first() {
        Some(id) => date_by_hint(snapshot, id, slot_hint).1,
        None => 0,
    }
}

fn first_subject(
    alloc: Global,
    snapshot: &Snapshot,
    ids: &[MessageId],
    slot_hint: u64,
) -> Result<Many<u8>, NoMemory>
    ensures value { IfOk result (λ subject. subject ≡ first_subject snapshot.now ids.now) }
    ensures utf8 { IfOk result (λ subject. IsUtf8 subject) }
{
    match ids.first() {
        Some(id) => subject_of(alloc, snapshot, id, slot_hint),
        None => Ok(Many::new(alloc)),
    }
}

/// The subject of a message, as it is shown.
fn subject_of(
    alloc: Global,
    snapshot: &Snapshot,
    id: &MessageId,
    slot_hint: u64,
) -> Result<Many<u8>, NoMemory>
    ensures value { IfOk result (λ subject. subject ≡ subject_of snapshot.now id.now) }
    ensures utf8 { IfOk result (λ subject. IsUtf8 subject) }
{
    let subject = lead_subject(snapshot, id, slot_hint);
    shown(alloc, bare_subject(subject.as_bytes()))
}

/// The subject of a message, by its lead file, which is looked for at `slot_hint` first.
pub(crate) fn lead_subject<'a>(snapshot: &'a Snapshot, id: &MessageId, slot_hint: u64) -> &'a str
    ensures { result.now ≡ lead_subject (files_of snapshot.now id.now) }
{
    let Some((_, mut files)) = snapshot.files_by_hint(id, slot_hint) else {
        return "";
    };
    match files.next() {
        Some((_, facts)) => facts.subject.as_str(),
        None => "",
    }
}

fn push_line(alloc: Global, line: &mut Many<u8>, summary: &ThreadSummary) -> Result<(), NoMemory>
    ensures { OnOk result (line.new ≡ line.old ++ summary_line summary.now) }
{
    push_thread(alloc, line, summary)?;
    push_counts(line, summary)?;
    push_mail(alloc, line, summary)?;
    Ok(())
}

fn push_thread(alloc: Global, line: &mut Many<u8>, summary: &ThreadSummary) -> Result<(), NoMemory>
    ensures { OnOk result (line.new ≡ line.old ++ thread_told summary.now) }
{
    push_name(alloc, line, summary)?;
    push_day(line, summary.date)?;
    Ok(())
}

fn push_name(alloc: Global, line: &mut Many<u8>, summary: &ThreadSummary) -> Result<(), NoMemory>
    ensures { OnOk result (line.new ≡ line.old ++ name_told summary.now) }
{
    let digits = thread_digits(alloc, summary.thread)?;
    line.extend_from_slice(b"thread:")?;
    line.extend_from_slice(digits.as_bytes())?;
    line.extend_from_slice(b"   ")?;
    Ok(())
}

fn push_day(line: &mut Many<u8>, date: i64) -> Result<(), NoMemory>
    ensures { OnOk result (line.new ≡ line.old ++ shown_day date) }
{
    let day = shown_day(date);
    line.extend_from_slice(&day)?;
    Ok(())
}

fn push_counts(line: &mut Many<u8>, summary: &ThreadSummary) -> Result<(), NoMemory>
    ensures { OnOk result (line.new ≡ line.old ++ counts_told summary.now) }
{
    line.extend_from_slice(b" [")?;
    push_number(line, summary.matched)?;
    line.extend_from_slice(b"/")?;
    push_number(line, summary.total)?;
    push_files(line, summary)?;
    line.extend_from_slice(b"] ")?;
    Ok(())
}

fn push_files(line: &mut Many<u8>, summary: &ThreadSummary) -> Result<(), NoMemory>
    ensures { OnOk result (line.new ≡ line.old ++ files_told summary.now) }
{
    if summary.total < summary.files {
        line.extend_from_slice(b"(")?;
        push_number(line, summary.files)?;
        line.extend_from_slice(b")")?;
    }
    Ok(())
}

fn push_number(line: &mut Many<u8>, number: u64) -> Result<(), NoMemory>
    ensures { OnOk result (line.new ≡ line.old ++ decimal number) }
{
    let mut buffer = Buffer::new();
    line.extend_from_slice(buffer.format(number).as_bytes())
}

fn push_mail(alloc: Global, line: &mut Many<u8>, summary: &ThreadSummary) -> Result<(), NoMemory>
    ensures { OnOk result (line.new ≡ line.old ++ mail_told summary.now) }
{
    line.extend_from_slice(summary.authors.as_slice())?;
    line.extend_from_slice(b"; ")?;
    line.extend_from_slice(summary.subject.as_slice())?;
    line.extend_from_slice(b" (")?;
    push_tags(alloc, line, summary)?;
    line.extend_from_slice(b")\n")?;
    Ok(())
}

fn push_tags(alloc: Global, line: &mut Many<u8>, summary: &ThreadSummary) -> Result<(), NoMemory>
    ensures { OnOk result (line.new ≡ line.old ++ joined (codes " ") summary.now.tags) }
{
    let tags = summary.tags.to_list(alloc)?;
    let texts = texts_of_tags(alloc, tags.as_slice())?;
    let text = joined(alloc, " ", texts.as_slice())?;
    line.extend_from_slice(text.as_bytes())
}
