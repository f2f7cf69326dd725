//! What is between the delimiters of a multipart: `open_parts` asks for one part after the other.

ghost use Rattle.std.specs.Prelude.{◌≡◌, ◌∷◌, ◌<◌, ◌≤◌, [], ℕ, IfOk, IfSome, MatchOption, drop, length, true};
ghost use Rattle.nm_text.specs.Lines.{lines_of};
ghost use Rattle.nm_mime.specs.Children.{delimiters_of, ends_part, is_line_of, part_len, spans_of, stops};
ghost use Rattle.nm_mime.specs.ChildSteps.{IsNextInside};

use nm_base::{Many, NoMemory};
use nm_text::{content, is_all_white_space, line_len};
use std::alloc::Global;

/// What a line begins with that ends a part.
#[derive(Drop)]
pub struct Delimiters {
    pub delimiter: Many<u8>,
    pub closing: Many<u8>,
}

/// Where a part begins and ends.
#[derive(Clone, Copy)]
pub struct Span {
    pub from: usize,
    pub to: usize,
}

pub(crate) fn line_delimiters(alloc: Global, boundary: &[u8]) -> Result<Delimiters, NoMemory>
    ensures { IfOk result (λ delimiters. delimiters ≡ delimiters_of boundary.now) }
{
    let mut delimiter = Many::from_slice(alloc, b"--")?;
    delimiter.extend_from_slice(boundary)?;
    let mut closing = Many::from_slice(alloc, delimiter.as_slice())?;
    closing.extend_from_slice(b"--")?;
    Ok(Delimiters { delimiter, closing })
}

/// A part, and where the bytes after it begin.
#[derive(Clone, Copy)]
pub struct NextSpan {
    pub span: Span,
    pub next: usize,
}

/// The first part in these bytes, which end at `end`.
pub(crate) fn next_span(delimiters: &Delimiters, bytes: &[u8], end: usize) -> Option<NextSpan>
    requires { length bytes.now ≤ end }
    ensures next { MatchOption result (spans_of delimiters.now end bytes.now ≡ []) (λ found. spans_of delimiters.now end bytes.now ≡ found.span ∷ spans_of delimiters.now end (drop found.next bytes.now)) }
    ensures inside { IfSome result (IsNextInside (length bytes.now) end) }
{
    let first = part_end(delimiters, bytes).next;
    let rest = &bytes[first..];
    if rest.is_empty() {
        return None;
    }
    let (line, after) = rest.split_at(line_len(rest));
    if is_line_of(delimiters.closing.as_slice(), line) {
        return None;
    }
    let from = end - after.len();
    let part = part_end(delimiters, after);
    Some(NextSpan {
        span: Span {
            from,
            to: from + part.len,
        },
        next: bytes.len() - after.len() + part.next,
    })
}

/// How far a part goes.
#[derive(Clone, Copy)]
pub struct PartEnd {
    /// How many bytes it has.
    pub len: usize,
    /// Where the line is that ends it, or else the end of the bytes.
    pub next: usize,
}

/// How far the part goes that begins here: no part begins before `next`.
fn part_end(delimiters: &Delimiters, bytes: &[u8]) -> PartEnd
    ensures len { result.len ≡ part_len delimiters.now (lines_of bytes.now) }
    ensures same { (end : ℕ) → spans_of delimiters.now end (drop result.next bytes.now) ≡ spans_of delimiters.now end bytes.now }
    ensures stops { result.next < length bytes.now → stops delimiters.now (lines_of (drop result.next bytes.now)) ≡ true }
    ensures short { result.len ≤ result.next }
    ensures within { result.next ≤ length bytes.now }
{
    let mut next = 0;
    let mut len = 0;
    'lines: while next < bytes.len() {
        let rest = &bytes[next..];
        let line = &rest[..line_len(rest)];
        if ends_part(delimiters, line) {
            return PartEnd { len, next };
        }
        len = next + content(line).len();
        next += line.len();
    }
    PartEnd { len: next, next }
}

fn ends_part(delimiters: &Delimiters, line: &[u8]) -> bool
    ensures { result ≡ ends_part delimiters.now line.now }
{
    if is_line_of(delimiters.delimiter.as_slice(), line) {
        return true;
    }
    is_line_of(delimiters.closing.as_slice(), line)
}

/// Whether the content of the line has this in front, and then white space alone.
fn is_line_of(front: &[u8], line: &[u8]) -> bool
    ensures { result ≡ is_line_of front.now line.now }
{
    let text = content(line);
    if !text.starts_with(front) {
        return false;
    }
    is_all_white_space(&text[front.len()..])
}
