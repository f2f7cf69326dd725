//! Lines, ids and tags of rows, for `commit_rows`, `journal_rows`, `snapshot_rows`, `thread_rows` and their like.

use nm_base::{Many, MessageId, Tags, Text};
use rows::{Lines, RowLine, id_of};
use std::alloc::Global;

/// Whether the line is one of those that a row is on.
pub fn is_item(line: &RowLine<'_>) -> bool {
    matches!(line.mark, [b'|'])
}

/// The ids that the words are; a word that is none is passed over.
pub fn ids_in(alloc: Global, words: &[Text]) -> Many<MessageId> {
    let mut ids = Many::new(alloc);
    'words: for word in words {
        add_id(alloc, &mut ids, word);
    }
    ids
}

fn add_id(alloc: Global, ids: &mut Many<MessageId>, word: &Text) {
    if let Ok(id) = id_of(alloc, word.as_bytes()) {
        let _ = ids.push(id);
    }
}

/// Goes on with the line by each id after a blank.
pub fn push_ids(lines: &mut Lines, ids: &[MessageId]) {
    'ids: for id in ids {
        lines.push_after_blank(id.text().as_bytes());
    }
}

/// Goes on with the line by each tag after a blank.
pub fn push_tags(lines: &mut Lines, tags: &Tags) {
    'tags: for tag in tags.iter() {
        lines.push_after_blank(tag.text().as_bytes());
    }
}
