//! The tags that a message begins with, for `thread_ids`, and tags that are set, for `changes` and `nm_state`.

ghost use Rattle.std.specs.Prelude.{◌≡◌, ℕ, List, true, Some, IfOk, OnOk, if◌then◌else◌};
ghost use Rattle.std.specs.BTreeMap.{insert_entry};
ghost use Rattle.std.specs.Cmp.Lexicographic.{slice_cmp};
ghost use Rattle.std.specs.Ordering.{is_eq, nat_cmp};
ghost use Rattle.nm_base.specs.Order.{IsSorted};
ghost use Rattle.nm_base.specs.Tag.{is_tag};
ghost use Rattle.nm_base.specs.Tags.{with_tag};
ghost use Rattle.nm_model_index.specs.Index.{first_tags};
ghost use Rattle.nm_tables.specs.FileTable.{at_text};

use nm_base::{Marks, MessageId, NoMemory, Tag, Tags, Text};
use nm_tables::MessageTags;
use std::alloc::Global;

/// Adds the tag of a word.
fn add_word(alloc: Global, tags: &mut Tags, word: &str) -> Result<(), NoMemory>
    requires { is_tag word.now ≡ true }
    ensures { OnOk result (tags.new ≡ with_tag tags.old word.now) }
{
    let Ok(tag) = Tag::new(Text::of(alloc, word)?) else {
        unreachable!()
    };
    tags.add(tag)?;
    Ok(())
}

/// The same where the mark is set.
fn add_mark(alloc: Global, tags: &mut Tags, is_set: bool, word: &str) -> Result<(), NoMemory>
    requires { is_tag word.now ≡ true }
    ensures { OnOk result (tags.new ≡ (if is_set then with_tag tags.old word.now else tags.old)) }
{
    if !is_set {
        return Ok(());
    }
    add_word(alloc, tags, word)
}

/// The tags of a message that becomes live.
pub fn first_tags(alloc: Global, marks: Marks) -> Result<Tags, NoMemory>
    ensures { IfOk result (λ tags. tags ≡ first_tags marks) }
{
    let mut tags = Tags::new(alloc);
    add_word(alloc, &mut tags, "inbox")?;
    add_word(alloc, &mut tags, "unread")?;
    add_mark(alloc, &mut tags, marks.attachment, "attachment")?;
    add_mark(alloc, &mut tags, marks.encrypted, "encrypted")?;
    add_mark(alloc, &mut tags, marks.signed, "signed")?;
    Ok(tags)
}

/// Gives a message these tags and no others.
pub fn set_tags(
    alloc: Global,
    all: &mut MessageTags,
    id: &MessageId,
    tags: Tags,
) -> Result<(), NoMemory>
    ensures tags { OnOk result (all.new ≡ insert_entry (slice_cmp nat_cmp) all.old id.now tags) }
    ensures found { OnOk result ((other : List ℕ) → at_text other all.new ≡ (if is_eq (slice_cmp nat_cmp other id.now) then Some tags else at_text other all.old)) }
    ensures sorted { IsSorted tags }
{
    // No code needs them one by one; that they are in order comes with it.
    let _ = tags.iter();
    all.insert(alloc, id, tags)
}
