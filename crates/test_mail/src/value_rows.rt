//! Rows on values, whose lines `|` are steps: the bounds of names, sets of tags, and lists, for `answers`.

use crate::question::Question;
use crate::shown::show;
use nm_base::{
    BadValue, Copies, MailPath, Many, MessageId, NoMemory, Room, Tag, Tags, Text, is_word,
};
use rows::{Lines, RowError, cut, named, tag_of, value_of};
use std::alloc::Global;

/// What the steps of a row are on.
#[derive(Clone, Copy)]
pub enum Steps {
    Names,
    Tags,
    List,
}

pub fn push(kind: Steps, question: &Question<'_>, lines: &mut Lines) -> Result<(), RowError> {
    match kind {
        Steps::Names => run(&mut Names, question, lines),
        Steps::Tags => push_tags(question, lines),
        Steps::List => push_list(question, lines),
    }
}

/// A value that steps change or ask.
trait Stepped {
    fn step(&mut self, alloc: Global, step: &[u8], lines: &mut Lines) -> Result<(), RowError>;
}

fn run<S: Stepped>(
    value: &mut S,
    question: &Question<'_>,
    lines: &mut Lines,
) -> Result<(), RowError> {
    'lines: for line in question.row.lines.as_slice() {
        if line.mark == b"|".as_slice() {
            value.step(question.alloc, line.bytes.as_slice(), lines)?;
        }
    }
    Ok(())
}

/// A step is a text: its line says what does not take it as its name, and why.
#[derive(Drop)]
struct Names;

impl Stepped for Names {
    fn step(&mut self, alloc: Global, step: &[u8], lines: &mut Lines) -> Result<(), RowError> {
        let text = value_of(alloc, step)?;
        push_verdicts(&text, lines)
    }
}

fn push_verdicts(text: &Text, lines: &mut Lines) -> Result<(), RowError> {
    let id = verdict(MessageId::new(text.copy()?));
    let tag = verdict(Tag::new(text.copy()?));
    let path = verdict(MailPath::new(text.copy()?));
    lines.line_of(b"id", id);
    lines.push(b", tag");
    lines.push(tag);
    lines.push(b", word");
    lines.push(word_verdict(text));
    lines.push(b", path");
    lines.push(path);
    Ok(())
}

fn verdict<T: Drop>(made: Result<T, BadValue>) -> &'static [u8] {
    match made {
        Ok(_) => b" ok",
        Err(BadValue::Length) => b" LENGTH",
        Err(BadValue::Byte) => b" BYTE",
    }
}

fn word_verdict(text: &Text) -> &'static [u8] {
    if is_word(text.as_str()) {
        b" ok"
    } else {
        b" LENGTH"
    }
}

/// A tag after `+` is added, after `-` removed, and after `?` its line says whether it is there.
fn push_tags(question: &Question<'_>, lines: &mut Lines) -> Result<(), RowError> {
    let mut tags = Tags::new(question.alloc);
    run(&mut tags, question, lines)
}

impl Stepped for Tags {
    fn step(&mut self, alloc: Global, step: &[u8], lines: &mut Lines) -> Result<(), RowError> {
        let Some((sign, name)) = step.split_first() else {
            return Err(RowError::Broken("a tag stands behind +, - or ?"));
        };
        let tag = tag_of(alloc, name)?;
        take_tag(self, *sign, &tag, lines)
    }
}

fn take_tag(tags: &mut Tags, sign: u8, tag: &Tag, lines: &mut Lines) -> Result<(), RowError> {
    match sign {
        b'+' => return add_tag(tags, tag),
        b'-' => tags.remove(tag),
        b'?' => push_tag(tags, tag, lines),
        _ => return Err(RowError::Broken("a tag stands behind +, - or ?")),
    }
    Ok(())
}

fn add_tag(tags: &mut Tags, tag: &Tag) -> Result<(), RowError> {
    Ok(tags.add(tag.copy()?)?)
}

fn push_tag(tags: &Tags, tag: &Tag, lines: &mut Lines) {
    lines.line(if tags.has(tag) { b"yes" } else { b"no" });
}

/// The bytes of a list after the steps.
fn push_list(question: &Question<'_>, lines: &mut Lines) -> Result<(), RowError> {
    let mut list = Many::new(question.alloc);
    match run(&mut list, question, lines) {
        Ok(()) => show(list.copy(), lines),
        Err(error) => Err(error),
    }
}

/// A step of a list of bytes.
#[derive(Clone, Copy)]
enum ListStep {
    Pop,
    Append,
    /// Appends bytes as they come out of a room that was made for them.
    Room,
    Push,
    /// Replaces the second byte.
    Second,
}

const LIST_STEPS: [(&[u8], ListStep); 5] = [
    (b"pop", ListStep::Pop),
    (b"append", ListStep::Append),
    (b"room", ListStep::Room),
    (b"push", ListStep::Push),
    (b"second", ListStep::Second),
];

impl Stepped for Many<u8> {
    fn step(&mut self, alloc: Global, step: &[u8], _: &mut Lines) -> Result<(), RowError> {
        let (name, bytes) = cut(step, b' ');
        match named(&LIST_STEPS, name)? {
            ListStep::Pop => pop(self),
            ListStep::Append => append(self, bytes),
            ListStep::Room => append_room(alloc, self, bytes),
            ListStep::Push => push_byte(self, bytes),
            ListStep::Second => replace_second(self, bytes),
        }
    }
}

fn pop(list: &mut Many<u8>) -> Result<(), RowError> {
    list.pop();
    Ok(())
}

fn append(list: &mut Many<u8>, bytes: &[u8]) -> Result<(), RowError> {
    Ok(list.extend_from_slice(bytes)?)
}

fn append_room(alloc: Global, list: &mut Many<u8>, bytes: &[u8]) -> Result<(), RowError> {
    match in_room(alloc, bytes) {
        Ok(made) => append(list, made.as_slice()),
        Err(NoMemory) => Err(RowError::NoMemory),
    }
}

fn in_room(alloc: Global, bytes: &[u8]) -> Result<Many<u8>, NoMemory> {
    let mut room = Room::new(alloc);
    'bytes: for byte in bytes {
        room.reserve(1)?;
        room.push_spare(*byte);
    }
    Ok(room.into_many())
}

fn push_byte(list: &mut Many<u8>, bytes: &[u8]) -> Result<(), RowError> {
    let byte = byte_of(bytes)?;
    Ok(list.push(byte)?)
}

fn replace_second(list: &mut Many<u8>, bytes: &[u8]) -> Result<(), RowError> {
    let byte = byte_of(bytes)?;
    if list.len() > 1 {
        list.replace(1, byte);
    }
    Ok(())
}

fn byte_of(bytes: &[u8]) -> Result<u8, RowError> {
    match bytes {
        [byte] => Ok(*byte),
        _ => Err(RowError::Broken("no byte where the step has one")),
    }
}
