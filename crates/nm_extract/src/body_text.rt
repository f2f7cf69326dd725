//! The text of a readable part, for the lists of words and for `bodies`.

ghost use Rattle.std.specs.Prelude.{◌≡◌, IfOk, filter, length, map};
ghost use Rattle.std.specs.List.{All};
ghost use Rattle.nm_extract.specs.PartText.{is_html, is_readable, part_text, visible_text};
ghost use Rattle.nm_mime.specs.Parts.{IsInside};

use crate::html::strip_html_tags;
use nm_base::{Many, NoMemory, Text};
use nm_decode::{base64_bytes, charset_text, quoted_printable};
use nm_mime::{Encoding, Part, Role};
use std::alloc::Global;

/// The text of each readable part.
pub(crate) fn part_texts(alloc: Global, mail: &[u8], parts: &[Part]) -> Result<Many<Text>, NoMemory>
    requires { All (IsInside (length mail.now)) parts.now }
    ensures { IfOk result (λ texts. texts ≡ map (part_text mail.now) (filter (λ part. is_readable part.role) parts.now)) }
{
    let mut texts = Many::new(alloc);
    'parts: for part in parts {
        if is_readable(part.role) {
            texts.push(part_text(alloc, mail, part)?)?;
        }
    }
    Ok(texts)
}

pub(crate) fn is_readable(role: Role) -> bool
    ensures { result ≡ is_readable role }
{
    matches!(role, Role::Readable)
}

/// The content of a part decoded, and read in its charset.
pub(crate) fn part_text(alloc: Global, mail: &[u8], part: &Part) -> Result<Text, NoMemory>
    requires { IsInside (length mail.now) part.now }
    ensures { IfOk result (λ text. text ≡ part_text mail.now part.now) }
{
    let content = &mail[part.from..part.to];
    let charset = part.charset.as_str();
    match part.encoding {
        Encoding::Plain => charset_text(alloc, content, charset),
        Encoding::Quoted => {
            let bytes = quoted_printable(alloc, content)?;
            charset_text(alloc, bytes.as_slice(), charset)
        }
        Encoding::Base64 => {
            let bytes = base64_bytes(alloc, content)?;
            charset_text(alloc, bytes.as_slice(), charset)
        }
    }
}

/// What is read of a text of this type: of HTML what is outside the tags.
pub(crate) fn visible_text(alloc: Global, kind: &str, text: Text) -> Result<Text, NoMemory>
    ensures { IfOk result (λ visible. visible ≡ visible_text kind.now text) }
{
    if is_html(kind) {
        return strip_html_tags(alloc, text.as_str());
    }
    Ok(text)
}

fn is_html(kind: &str) -> bool
    ensures { result ≡ is_html kind.now }
{
    kind == "text/html"
}
