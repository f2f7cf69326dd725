//! A set of tags in bytes: its tags, which rise strictly, for `changes`.

ghost use Rattle.std.specs.Prelude.{◌≡◌, length, min, true, IfOk, None};
ghost use Rattle.std.specs.Cmp.Lexicographic.{slice_cmp};
ghost use Rattle.std.specs.Ordering.{nat_cmp};
ghost use Rattle.nm_codec.specs.ReadSteps.{is_below, is_rising};
ghost use Rattle.nm_record.specs.Tags.{tags_grammar};

use crate::names::TagFormat;
use nm_base::{Copies, Many, NoMemory, Tag, Tags};
use nm_codec::{Format, ReadError, Reader, RisingOf, Writer};
use std::alloc::Global;

pub(crate) struct TagsFormat;

impl Format for TagsFormat {
    type Value = Tags;

    ghost grammar = { tags_grammar };

    ghost asked = { λ tags. true };

    fn read(alloc: Global, reader: &mut Reader<'_>) -> Result<Tags, ReadError> {
        let tags = <RisingOf<TagFormat> as Format>::read(alloc, reader)?;
        Ok(tags_of(alloc, &tags)?)
    }

    fn len(value: &Tags) -> u64 {
        let mut len = 4u64;
        'tags: for tag in value.iter() {
            len = len.saturating_add(TagFormat::len(tag));
        }
        len
    }

    fn write(value: &Tags, writer: &mut Writer) -> Result<(), NoMemory> {
        let tags = value.to_list(writer.alloc())?;
        <RisingOf<TagFormat> as Format>::write(&tags, writer)
    }
}

/// The set of tags that rise.
fn tags_of(alloc: Global, list: &Many<Tag>) -> Result<Tags, NoMemory>
    requires { is_rising (is_below (slice_cmp nat_cmp)) None list.now ≡ true }
    ensures { IfOk result (λ tags. tags ≡ list.now) }
{
    let mut tags = Tags::new(alloc);
    'tags: for tag in list.as_slice() {
        tags.add(tag.copy()?)?;
    }
    Ok(tags)
}
