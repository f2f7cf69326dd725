//! The lines of a dump, for `dump_writer`.

ghost use Rattle.std.specs.Prelude.{◌≡◌, ◌++◌, true, OnOk};
ghost use Rattle.std.specs.List.{flat_map, join_with_byte};
ghost use Rattle.std.specs.Str.{is_utf8};
ghost use Rattle.hex.specs.Hex.{IsBytes};
ghost use Rattle.nm_base.specs.MessageId.{is_message_id};
ghost use Rattle.nm_model_answer.specs.Dump.{changes_line, doubled, quoted, sup_line, wants_quotes, written_id, written_tag};
ghost use Rattle.nm_dump.specs.Tags.{AreTags, IsTagOfBytes};
ghost use Rattle.nm_dump.specs.ReadBack.{IsMessage};

use crate::ids::has_parenthesis;
use nm_base::{Many, MessageId, NoMemory, Tag, Tags};
use nm_tags::encode_tag;
use std::alloc::Global;

/// Adds the line of a message in the form of tag changes.
pub(crate) fn push_changes(
    alloc: Global,
    text: &mut Many<u8>,
    id: &MessageId,
    tags: &Tags,
) -> Result<(), NoMemory>
    ensures line { OnOk result (text.new ≡ text.old ++ changes_line id.now tags.now) }
    ensures message { OnOk result (IsMessage id.now tags.now) }
{
    push_tags(alloc, text, tags)?;
    text.extend_from_slice(b"-- id:")?;
    push_id(text, id_text(id).as_bytes())
}

fn push_tags(alloc: Global, text: &mut Many<u8>, tags: &Tags) -> Result<(), NoMemory>
    ensures text { OnOk result (text.new ≡ text.old ++ flat_map written_tag tags.now) }
    ensures tags { OnOk result (AreTags tags.now) }
{
    let mut rest = tags.iter();
    'tags: while let Some(tag) = rest.next() {
        push_tag(alloc, text, tag)?;
    }
    Ok(())
}

fn push_tag(alloc: Global, text: &mut Many<u8>, tag: &Tag) -> Result<(), NoMemory>
    ensures text { OnOk result (text.new ≡ text.old ++ written_tag tag.now) }
    ensures tag { IsTagOfBytes tag.now }
{
    tag_text(tag);
    let encoded = encode_tag(alloc, tag)?;
    text.push(b'+')?;
    text.extend_from_slice(encoded.as_bytes())?;
    text.push(b' ')
}

/// Adds an id, in quotes where it wants them.
fn push_id(text: &mut Many<u8>, id: &[u8]) -> Result<(), NoMemory>
    ensures { OnOk result (text.new ≡ text.old ++ written_id id.now) }
{
    if wants_quotes(id) {
        return push_quoted(text, id);
    }
    text.extend_from_slice(id)
}

fn wants_quotes(id: &[u8]) -> bool
    ensures { result ≡ wants_quotes id.now }
{
    has_parenthesis(id) || id.starts_with(b"\"")
}

fn push_quoted(text: &mut Many<u8>, id: &[u8]) -> Result<(), NoMemory>
    ensures { OnOk result (text.new ≡ text.old ++ quoted id.now) }
{
    text.push(b'"')?;
    push_doubled(text, id)?;
    text.push(b'"')
}

/// Adds bytes, each double quote twice.
fn push_doubled(text: &mut Many<u8>, bytes: &[u8]) -> Result<(), NoMemory>
    ensures { OnOk result (text.new ≡ text.old ++ flat_map doubled bytes.now) }
{
    'bytes: for byte in bytes {
        push_byte(text, *byte)?;
    }
    Ok(())
}

fn push_byte(text: &mut Many<u8>, byte: u8) -> Result<(), NoMemory>
    ensures { OnOk result (text.new ≡ text.old ++ doubled byte) }
{
    if byte == b'"' {
        text.push(byte)?;
    }
    text.push(byte)
}

/// Adds the line of a message in the form of sup.
pub(crate) fn push_sup(text: &mut Many<u8>, id: &MessageId, tags: &Tags) -> Result<(), NoMemory>
    ensures line { OnOk result (text.new ≡ text.old ++ sup_line id.now tags.now) }
    ensures message { OnOk result (IsMessage id.now tags.now) }
{
    text.extend_from_slice(id_text(id).as_bytes())?;
    text.extend_from_slice(b" (")?;
    push_plain_tags(text, tags)?;
    text.push(b')')
}

/// Adds the tags as they are, with a space between.
fn push_plain_tags(text: &mut Many<u8>, tags: &Tags) -> Result<(), NoMemory>
    ensures text { OnOk result (text.new ≡ text.old ++ join_with_byte 32 tags.now) }
    ensures tags { OnOk result (AreTags tags.now) }
{
    let mut rest = tags.iter();
    let Some(first) = rest.next() else {
        return Ok(());
    };
    text.extend_from_slice(tag_text(first).as_bytes())?;
    'tags: while let Some(tag) = rest.next() {
        text.push(b' ')?;
        text.extend_from_slice(tag_text(tag).as_bytes())?;
    }
    Ok(())
}

fn tag_text(tag: &Tag) -> &str
    ensures same { result.now ≡ tag.now }
    ensures tag { IsTagOfBytes tag.now }
{
    text_bytes(tag.text().as_str())
}

fn id_text(id: &MessageId) -> &str
    ensures same { result.now ≡ id.now }
    ensures text { is_utf8 id.now ≡ true }
    ensures id { is_message_id id.now ≡ true }
{
    text_bytes(id.text().as_str())
}

/// The text itself, of which its contract says what a text is.
fn text_bytes(text: &str) -> &str
    ensures same { result.now ≡ text.now }
    ensures bytes { IsBytes text.now }
    ensures text { is_utf8 text.now ≡ true }
{
    text
}
