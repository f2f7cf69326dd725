//! HTML without its tags, for `body_text`, the text of a part.

ghost use Rattle.std.specs.Prelude.{◌≡◌, ◌≤◌, false, true, IfOk, length};
ghost use Rattle.nm_extract.specs.Html.{strip_from, strip_html_tags};

use nm_base::{NoMemory, Text};
use nm_text::cut_at;
use std::alloc::Global;

/// The text with a space for each tag.
pub(crate) fn strip_html_tags(alloc: Global, text: &str) -> Result<Text, NoMemory>
    ensures { IfOk result (λ kept. kept ≡ strip_html_tags text.now) }
{
    let mut kept = String::with_capacity(alloc, text.len())?;
    let mut rest = text;
    'tags: while let Some((before, tag)) = cut_at(rest, b'<') {
        kept.push_str(before)?;
        kept.push(' ')?;
        rest = after_tag(tag);
    }
    kept.push_str(rest)?;
    Ok(Text::from_string(kept)?)
}

/// What follows the tag in which the text begins.
fn after_tag(text: &str) -> &str
    ensures value { strip_from true text.now ≡ strip_from false result.now }
    ensures shorter { length result.now ≤ length text.now }
{
    match cut_at(text, b'>') {
        Some((_, after)) => after,
        None => "",
    }
}
