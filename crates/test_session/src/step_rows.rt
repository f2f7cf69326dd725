//! Steps of the machine, as `machine_rows` reads them: `begin`, `append`, `show`, `see`, `meet`, `crash`, `reopen`,
//! and replies.

use nm_base::{CountAsk, Facts, Field, FieldWords, Many, Marks, NoMemory, Output, Text, WordList};
use nm_commit::{Change, Commit};
use nm_model_answer::Request;
use nm_model_machine::Step;
use nm_shared::Shared;
use rows::{RowError, cut, id_of, named, number_of, path_of, signed_of, tags_of, value_of};
use std::alloc::Global;

#[derive(Clone, Copy)]
enum StepName {
    Begin,
    Append,
    Show,
    Meet,
    Crash,
    Reopen,
    See,
}

const STEPS: [(&[u8], StepName); 7] = [
    (b"begin", StepName::Begin),
    (b"append", StepName::Append),
    (b"show", StepName::Show),
    (b"meet", StepName::Meet),
    (b"crash", StepName::Crash),
    (b"reopen", StepName::Reopen),
    (b"see", StepName::See),
];

#[derive(Clone, Copy)]
enum ChangeName {
    Add,
    Drop,
    Move,
    Tag,
}

const CHANGES: [(&[u8], ChangeName); 4] = [
    (b"add", ChangeName::Add),
    (b"drop", ChangeName::Drop),
    (b"move", ChangeName::Move),
    (b"tag", ChangeName::Tag),
];

/// What a request counts, whether it leaves out what is deleted, and whether it reads its queries.
const COUNTS: [(&[u8], (Output, bool, bool)); 5] = [
    (b"count", (Output::Messages, true, false)),
    (b"count-all", (Output::Messages, false, false)),
    (b"count-threads", (Output::Threads, true, false)),
    (b"count-files", (Output::Files, true, false)),
    (b"count-input", (Output::Messages, true, true)),
];

/// The step that a line has.
pub fn step(alloc: Global, line: &[u8]) -> Result<Step, RowError> {
    let (name, rest) = cut(line, b' ');
    match named(&STEPS, name) {
        Ok(StepName::Begin) => begin(alloc, rest),
        Ok(StepName::Append) => Ok(Step::Append),
        Ok(StepName::Show) => Ok(Step::Show),
        Ok(StepName::Meet) => Ok(Step::Meet),
        Ok(StepName::Crash) => crash(rest),
        Ok(StepName::Reopen) => Ok(Step::Reopen),
        Ok(StepName::See) => see(rest),
        Err(_) => reply(alloc, name, rest),
    }
}

/// `crash kept` or `crash lost`: whether the commit on its way has reached the disk.
fn crash(word: &[u8]) -> Result<Step, RowError> {
    let kept = named(&[(b"kept".as_slice(), true), (b"lost", false)], word)?;
    Ok(Step::Crash { kept })
}

fn see(bytes: &[u8]) -> Result<Step, RowError> {
    let lane = lane(bytes)?;
    Ok(Step::See { lane })
}

fn lane(bytes: &[u8]) -> Result<u32, RowError> {
    match u32::try_from(number_of(bytes)?) {
        Ok(lane) => Ok(lane),
        Err(_) => Err(RowError::Broken("no lane where the row has one")),
    }
}

/// `begin nothing`, or the changes of a commit, parted by `;`.
fn begin(alloc: Global, line: &[u8]) -> Result<Step, RowError> {
    let mut changes = Many::new(alloc);
    if line != b"nothing".as_slice() {
        add_changes(alloc, &mut changes, line)?;
    }
    Ok(Step::Begin {
        commit: Commit { changes },
    })
}

fn add_changes(alloc: Global, changes: &mut Many<Change>, line: &[u8]) -> Result<(), RowError> {
    'changes: for part in line.split(|b| *b == b';') {
        add_change(alloc, changes, part)?;
    }
    Ok(())
}

fn add_change(alloc: Global, changes: &mut Many<Change>, part: &[u8]) -> Result<(), RowError> {
    let change = change(alloc, part)?;
    Ok(changes.push(change)?)
}

/// `add PATH ID DATE`, `drop PATH`, `move FROM TO`, or `tag ID TAG`, after which the message has no other tag.
fn change(alloc: Global, part: &[u8]) -> Result<Change, RowError> {
    let (name, rest) = cut(part, b' ');
    match named(&CHANGES, name)? {
        ChangeName::Add => add(alloc, rest),
        ChangeName::Drop => dropped(alloc, rest),
        ChangeName::Move => moved(alloc, rest),
        ChangeName::Tag => tagged(alloc, rest),
    }
}

fn dropped(alloc: Global, line: &[u8]) -> Result<Change, RowError> {
    let path = path_of(alloc, line)?;
    Ok(Change::Drop { path })
}

fn moved(alloc: Global, line: &[u8]) -> Result<Change, RowError> {
    let (from, to) = cut(line, b' ');
    let from = path_of(alloc, from)?;
    let to = path_of(alloc, to)?;
    Ok(Change::Move { from, to })
}

fn tagged(alloc: Global, line: &[u8]) -> Result<Change, RowError> {
    let (message, name) = cut(line, b' ');
    let tags = tags_of(alloc, name)?;
    let id = id_of(alloc, message)?;
    Ok(Change::SetTags { id, tags })
}

/// A mail with the subject `red apples`.
fn add(alloc: Global, line: &[u8]) -> Result<Change, RowError> {
    let (at, rest) = cut(line, b' ');
    let facts = facts(alloc, rest)?;
    let path = path_of(alloc, at)?;
    Ok(Change::Add { path, facts })
}

fn facts(alloc: Global, line: &[u8]) -> Result<Shared<Facts>, RowError> {
    let (name, date) = cut(line, b' ');
    let date = signed_of(date)?;
    let id = id_of(alloc, name)?;
    let lists = red_apples(alloc)?;
    Ok(Shared::new(
        alloc,
        Facts {
            id,
            links: Many::new(alloc),
            date,
            from: Many::new(alloc),
            to: Many::new(alloc),
            subject: Text::new(alloc),
            lists,
            types: Many::new(alloc),
            marks: Marks {
                attachment: false,
                signed: false,
                encrypted: false,
            },
        },
    )?)
}

fn red_apples(alloc: Global) -> Result<Many<FieldWords>, NoMemory> {
    let mut words = WordList::new(alloc);
    words.push("red")?;
    words.push("apples")?;
    let mut lists = Many::new(alloc);
    lists.push(FieldWords {
        field: Field::Subject,
        words,
    })?;
    Ok(lists)
}

/// `REQUEST LANE QUERY TEXT`: a reply of the lane. What is absent is written `-`.
fn reply(alloc: Global, name: &[u8], line: &[u8]) -> Result<Step, RowError> {
    let (number, rest) = cut(line, b' ');
    let (query, reply) = cut(rest, b' ');
    let lane = lane(number)?;
    let request = request(alloc, name, said(query))?;
    let text = Many::from_slice(alloc, said(reply))?;
    Ok(Step::Reply {
        lane,
        request,
        text,
    })
}

fn said(word: &[u8]) -> &[u8] {
    if word == b"-".as_slice() { b"" } else { word }
}

fn request(alloc: Global, name: &[u8], query: &[u8]) -> Result<Request, RowError> {
    if name == b"new".as_slice() {
        return Ok(Request::New);
    }
    let (output, exclude, batch) = named(&COUNTS, name)?;
    let query = value_of(alloc, query)?;
    Ok(Request::Count(CountAsk {
        output,
        exclude,
        batch,
        query,
    }))
}
