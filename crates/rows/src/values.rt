//! Values as rows write them: texts, ids, paths and tags, the words of a call, and names that a table tells. Programs of rows, as
//! `test_session`, read them so.

use crate::{RowError, text_of};
use nm_base::{MailPath, Many, MessageId, Tag, Tags, Text};
use std::alloc::Global;

/// The text that the bytes are.
pub fn value_of(alloc: Global, bytes: &[u8]) -> Result<Text, RowError> {
    Ok(Text::of(alloc, text_of(bytes)?)?)
}

pub fn id_of(alloc: Global, bytes: &[u8]) -> Result<MessageId, RowError> {
    match MessageId::new(value_of(alloc, bytes)?) {
        Ok(id) => Ok(id),
        Err(_) => Err(RowError::Broken("no id where the row has one")),
    }
}

pub fn path_of(alloc: Global, bytes: &[u8]) -> Result<MailPath, RowError> {
    match MailPath::new(value_of(alloc, bytes)?) {
        Ok(path) => Ok(path),
        Err(_) => Err(RowError::Broken("no path where the row has one")),
    }
}

pub fn tag_of(alloc: Global, bytes: &[u8]) -> Result<Tag, RowError> {
    match Tag::new(value_of(alloc, bytes)?) {
        Ok(tag) => Ok(tag),
        Err(_) => Err(RowError::Broken("no tag where the row has one")),
    }
}

/// Tags with blanks between them.
pub fn tags_of(alloc: Global, words: &[u8]) -> Result<Tags, RowError> {
    let mut tags = Tags::new(alloc);
    'words: for word in words.split(|b| *b == b' ') {
        if !word.is_empty() {
            tags.add(tag_of(alloc, word)?)?;
        }
    }
    Ok(tags)
}

/// The words of a call, with blanks between them.
pub fn words_of(alloc: Global, line: &[u8]) -> Result<Many<Text>, RowError> {
    let mut words = Many::new(alloc);
    'words: for word in line.split(|b| *b == b' ') {
        if !word.is_empty() {
            words.push(value_of(alloc, word)?)?;
        }
    }
    Ok(words)
}

/// What is beside the name in a table.
pub fn named<T: Copy>(table: &[(&[u8], T)], name: &[u8]) -> Result<T, RowError> {
    'table: for entry in table {
        if entry.0 == name {
            return Ok(entry.1);
        }
    }
    Err(RowError::Broken("no such name"))
}
