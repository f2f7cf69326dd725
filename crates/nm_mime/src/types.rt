//! Content types: `part_header` reads that of each part, and a row of `test_mail` may read one alone.

ghost use Rattle.std.specs.Prelude.{◌≡◌, IfOk, IsUtf8, map, position, true};
ghost use Rattle.std.specs.Char.{to_ascii_lowercase};
ghost use Rattle.std.specs.List.{before_first};
ghost use Rattle.nm_mime.specs.Params.{params_of};
ghost use Rattle.nm_mime.specs.Types.{content_type_of, default_type, ends_type, is_type, mail_type, read_type, run_of, type_of};

use crate::param_list::{Param, params};
use nm_base::{Many, NoMemory, Text};
use nm_text::{first_place, is_printable, lowercase, text_of, trimmed_start};
use std::alloc::Global;

/// A content type with its parameters.
#[derive(Drop)]
pub struct ContentType {
    /// `type/subtype`, in lower case.
    pub kind: Text,
    /// Of a name that occurs twice the first counts.
    pub params: Many<Param>,
}

/// Reads the text of a Content-Type field (RFC 2045, section 5.1). Where no `type/subtype` is at its front it is
/// text/plain in US-ASCII. A parameter with a `*` in its name is passed over.
pub fn content_type(alloc: Global, text: &str) -> Result<ContentType, NoMemory>
    ensures { IfOk result (λ content_type. content_type ≡ content_type_of text.now) }
{
    part_type(alloc, text, false)
}

/// The type of a part, which may be in a digest.
pub(crate) fn part_type(alloc: Global, text: &str, digest: bool) -> Result<ContentType, NoMemory>
    ensures { IfOk result (λ content_type. content_type ≡ type_of digest text.now) }
{
    let run = run(text.as_bytes());
    if is_type(run) {
        return read(alloc, run, text.as_bytes());
    }
    if digest {
        mail_type(alloc)
    } else {
        default_type(alloc)
    }
}

fn read(alloc: Global, run: &[u8], text: &[u8]) -> Result<ContentType, NoMemory>
    requires utf8 { IsUtf8 text.now }
    requires run { run.now ≡ run_of text.now }
    requires slash { is_type run.now ≡ true }
    ensures { IfOk result (λ read. read ≡ record { kind = map to_ascii_lowercase run.now; params = params_of text.now }) }
{
    let kind = text_of(lowercase(alloc, run)?)?;
    let params = params(alloc, text)?;
    Ok(ContentType { kind, params })
}

fn default_type(alloc: Global) -> Result<ContentType, NoMemory>
    ensures { IfOk result (λ found. found ≡ default_type) }
{
    let name = Text::of(alloc, "charset")?;
    let value = Text::of(alloc, "us-ascii")?;
    let mut params = Many::new(alloc);
    params.push(Param { name, value })?;
    let kind = Text::of(alloc, "text/plain")?;
    Ok(ContentType { kind, params })
}

fn mail_type(alloc: Global) -> Result<ContentType, NoMemory>
    ensures { IfOk result (λ mail. mail ≡ mail_type) }
{
    let kind = Text::of(alloc, "message/rfc822")?;
    let params = Many::new(alloc);
    Ok(ContentType { kind, params })
}

/// The printable ASCII characters other than `;` at the front.
fn run(text: &[u8]) -> &[u8]
    ensures { result.now ≡ run_of text.now }
{
    let text = trimmed_start(text);
    match type_end(text) {
        Some(at) => &text[..at],
        None => text,
    }
}

fn type_end(text: &[u8]) -> Option<usize>
    ensures { result ≡ position ends_type text.now }
{
    text.iter().position(|b| ends_type(*b))
}

fn ends_type(b: u8) -> bool
    ensures { result ≡ ends_type b }
{
    !is_printable(b) || b == b';'
}

/// Whether the first `/` has something before it and something after it.
fn is_type(run: &[u8]) -> bool
    ensures { result ≡ is_type run.now }
{
    let at = first_place(run, b'/');
    0 < at && at + 1 < run.len()
}
