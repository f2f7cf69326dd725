//! Documents as rows have them, for `segment_rows` and `tier_rows`: `NUMBER FIELD WORD ..; FIELD WORD ..`.

use crate::hit_lines::small_of;
use nm_base::{Field, FieldWords, Many, Text, WordList, is_word};
use nm_segment::DocWords;
use nm_shared::Shared;
use rows::{Row, RowError, cut, named, words_of};
use std::alloc::Global;

pub const FIELDS: [(&[u8], Field); 5] = [
    (b"from", Field::From),
    (b"to", Field::To),
    (b"subject", Field::Subject),
    (b"body", Field::Body),
    (b"attachment", Field::Attachment),
];

/// The documents of the lines with this mark.
pub fn docs_of(alloc: Global, row: &Row<'_>, mark: &[u8]) -> Result<Many<DocWords>, RowError> {
    let mut docs = Many::new(alloc);
    'lines: for line in row.lines.as_slice() {
        if line.mark == mark {
            docs.push(doc_of(alloc, line.bytes.as_slice())?)?;
        }
    }
    Ok(docs)
}

/// The numbers of documents in the line with this mark.
pub fn numbers_of(alloc: Global, row: &Row<'_>, mark: &[u8]) -> Result<Many<u32>, RowError> {
    let text = row.text(alloc, mark)?;
    let words = words_of(alloc, text.as_slice())?;
    let mut numbers = Many::new(alloc);
    'words: for word in words.as_slice() {
        numbers.push(small_of(word.as_bytes())?)?;
    }
    Ok(numbers)
}

fn doc_of(alloc: Global, line: &[u8]) -> Result<DocWords, RowError> {
    let (number, lists) = cut(line, b' ');
    let doc = small_of(number)?;
    let lists = lists_of(alloc, lists)?;
    Ok(DocWords {
        doc,
        lists: Shared::new(alloc, lists)?,
    })
}

/// The lists of a document, which may have none.
fn lists_of(alloc: Global, text: &[u8]) -> Result<Many<FieldWords>, RowError> {
    let mut lists = Many::new(alloc);
    'lists: for list in text.split(|b| *b == b';') {
        if !list.is_empty() {
            lists.push(list_of(alloc, list)?)?;
        }
    }
    Ok(lists)
}

fn list_of(alloc: Global, text: &[u8]) -> Result<FieldWords, RowError> {
    let words = words_of(alloc, text)?;
    match words.as_slice() {
        [] => Err(RowError::Broken("a list without its field")),
        [field, words @ ..] => field_words(alloc, field.as_bytes(), words),
    }
}

fn field_words(alloc: Global, field: &[u8], words: &[Text]) -> Result<FieldWords, RowError> {
    let field = named(&FIELDS, field)?;
    let words = word_list(alloc, words)?;
    Ok(FieldWords { field, words })
}

pub fn word_list(alloc: Global, words: &[Text]) -> Result<WordList, RowError> {
    let mut list = WordList::new(alloc);
    'words: for word in words {
        if !is_word(word.as_str()) {
            return Err(RowError::Broken("no word where the row has one"));
        }
        list.push(word.as_str())?;
    }
    Ok(list)
}
