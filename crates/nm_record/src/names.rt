//! Ids, tags and paths as texts that obey their rules: `facts` and `changes` are made of them.

ghost use Rattle.std.specs.Prelude.{true};
ghost use Rattle.nm_record.specs.Facts.{id_grammar, path_grammar, tag_grammar};

use nm_base::{MailPath, MessageId, NoMemory, Tag};
use nm_codec::{Format, ReadError, Reader, Writer, text_len};
use std::alloc::Global;

pub(crate) struct IdFormat;

pub(crate) struct TagFormat;

pub(crate) struct PathFormat;

impl Format for IdFormat {
    type Value = MessageId;

    ghost grammar = { id_grammar };

    ghost asked = { λ id. true };

    #[tactic(auto, unfolding(nm_codec::specs::ReadSteps::tested_at))]
    fn read(alloc: Global, reader: &mut Reader<'_>) -> Result<MessageId, ReadError> {
        let at = reader.at();
        match MessageId::new(reader.text(alloc)?) {
            Ok(id) => Ok(id),
            Err(_) => Err(ReadError::Bad { at }),
        }
    }

    fn len(value: &MessageId) -> u64 {
        text_len(value.text())
    }

    fn write(value: &MessageId, writer: &mut Writer) -> Result<(), NoMemory> {
        writer.put_text(value.text())
    }
}

impl Format for TagFormat {
    type Value = Tag;

    ghost grammar = { tag_grammar };

    ghost asked = { λ tag. true };

    #[tactic(auto, unfolding(nm_codec::specs::ReadSteps::tested_at))]
    fn read(alloc: Global, reader: &mut Reader<'_>) -> Result<Tag, ReadError> {
        let at = reader.at();
        match Tag::new(reader.text(alloc)?) {
            Ok(tag) => Ok(tag),
            Err(_) => Err(ReadError::Bad { at }),
        }
    }

    fn len(value: &Tag) -> u64 {
        text_len(value.text())
    }

    fn write(value: &Tag, writer: &mut Writer) -> Result<(), NoMemory> {
        writer.put_text(value.text())
    }
}

impl Format for PathFormat {
    type Value = MailPath;

    ghost grammar = { path_grammar };

    ghost asked = { λ path. true };

    #[tactic(auto, unfolding(nm_codec::specs::ReadSteps::tested_at))]
    fn read(alloc: Global, reader: &mut Reader<'_>) -> Result<MailPath, ReadError> {
        let at = reader.at();
        match MailPath::new(reader.text(alloc)?) {
            Ok(path) => Ok(path),
            Err(_) => Err(ReadError::Bad { at }),
        }
    }

    fn len(value: &MailPath) -> u64 {
        text_len(value.text())
    }

    fn write(value: &MailPath, writer: &mut Writer) -> Result<(), NoMemory> {
        writer.put_text(value.text())
    }
}
