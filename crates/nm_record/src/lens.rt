//! How many bytes the parts of an index take as data, without these being made: `nm_tables` keeps the sums.

ghost use Rattle.std.specs.Prelude.{◌≡◌, length, min};
ghost use Rattle.nm_base.specs.Limits.{max_count};
ghost use Rattle.nm_codec.specs.Encoding.{text_bytes};
ghost use Rattle.nm_record.specs.Commits.{arrival_grammar};
ghost use Rattle.nm_record.specs.Tags.{tags_grammar};

use crate::facts::FactsFormat;
use crate::names::{IdFormat, PathFormat};
use crate::tag_list::TagsFormat;
use nm_base::{Facts, MailPath, MessageId, Tags};
use nm_codec::Format;

/// The bytes of a file, with the facts of its mail, as far as a number can count them.
pub fn file_len(path: &MailPath, facts: &Facts) -> u64
    ensures { result ≡ min (length (arrival_grammar.bytes (path.now, facts.now))) max_count }
{
    PathFormat::len(path).saturating_add(FactsFormat::len(facts))
}

/// The bytes of an id.
pub fn id_len(id: &MessageId) -> u64
    ensures { result ≡ min (length (text_bytes id.now)) max_count }
{
    IdFormat::len(id)
}

/// The bytes of a message's tags.
pub fn tags_len(tags: &Tags) -> u64
    ensures { result ≡ min (length (tags_grammar.bytes tags.now)) max_count }
{
    TagsFormat::len(tags)
}
