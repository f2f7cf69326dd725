//! A message of a snapshot, as `query_test` looks at it.

ghost use Rattle.std.specs.Prelude.{◌≡◌, [], MatchOption};
ghost use Rattle.nm_base.specs.Order.{has_text, same_text};
ghost use Rattle.nm_base.specs.Tags.{has_tag};
ghost use Rattle.nm_model_answer.specs.Test.{is_thread};
ghost use Rattle.nm_model_answer.specs.View.{files_of, view_of};

use nm_base::{MessageId, Tags};
use nm_state::{MessageFiles, Snapshot};
use std::marker::Model;

/// A message, which a contract sees as its id, its files, its tags and its thread. Its files are looked up once, or not at
/// all where they are known; its tags and its thread are not before they are asked.
#[derive(Drop)]
pub(crate) struct Message<'a> {
    snapshot: &'a Snapshot,
    id: &'a MessageId,
    files: Option<MessageFiles<'a>>,
    /// Where its tags are looked for first.
    slot_hint: u64,
}

impl<'a> Model for Message<'a> {
    ghost use Rattle.std.specs.Prelude.{◌≡◌, [], MatchOption};
    ghost use Rattle.nm_model_answer.specs.View.{View, files_of, view_of};

    ghost Value = { View };

    ghost view = { λ m. view_of m.snapshot.now m.id.now };

    ghost invariant = { λ m. MatchOption m.files (files_of m.snapshot.now m.id.now ≡ []) (λ files. files ≡ files_of m.snapshot.now m.id.now) };
}

impl<'a> Message<'a> {
    pub fn of(snapshot: &'a Snapshot, id: &'a MessageId) -> Message<'a>
        ensures { result ≡ view_of snapshot.now id.now }
    {
        let files = snapshot.files(id);
        Message {
            snapshot,
            id,
            files,
            slot_hint: 0,
        }
    }

    /// The same, where its files are known, and about where its tags are.
    pub fn with_files(
        snapshot: &'a Snapshot,
        id: &'a MessageId,
        files: MessageFiles<'a>,
        slot_hint: u64,
    ) -> Message<'a>
        requires { files ≡ files_of snapshot.now id.now }
        ensures { result ≡ view_of snapshot.now id.now }
    {
        Message {
            snapshot,
            id,
            files: Some(files),
            slot_hint,
        }
    }

    pub fn id(&self) -> &'a MessageId
        ensures { result.now ≡ self.now.id }
    {
        self.id
    }

    /// Its files, the lead file first.
    pub fn files(&self) -> Option<MessageFiles<'a>>
        ensures { MatchOption result (self.now.files ≡ []) (λ files. files ≡ self.now.files) }
    {
        match &self.files {
            Some(files) => Some(files.again()),
            None => None,
        }
    }

    pub fn has_tag(&self, tag: &str) -> bool
        ensures { result ≡ has_tag self.now.tags tag.now }
    {
        match self.snapshot.tags_by_hint(self.id, self.slot_hint) {
            Some((_, tags)) => has_text(tags, tag),
            None => false,
        }
    }

    pub fn has_id(&self, id: &str) -> bool
        ensures { result ≡ same_text id.now self.now.id }
    {
        id == self.id.text().as_str()
    }

    pub fn is_in_thread(&self, number: Option<u64>) -> bool
        ensures { result ≡ is_thread number self.now.thread }
    {
        let Some(number) = number else {
            return false;
        };
        match self.snapshot.thread(self.id) {
            Some(name) => number == name,
            None => false,
        }
    }
}

pub(crate) fn has_text(tags: &Tags, tag: &str) -> bool
    ensures { result ≡ has_text tags.now tag.now }
{
    'tags: for other in tags.iter() {
        if tag == other.text().as_str() {
            return true;
        }
    }
    false
}
