//! How far the next line of a header goes, for `fields`.

ghost use Rattle.std.specs.Prelude.{◌≡◌, ◌≤◌, [], length, IfSome, MatchOption, take, true};
ghost use Rattle.std.specs.List.{take_while};
ghost use Rattle.nm_header.specs.Fields.{continues};
ghost use Rattle.nm_header.specs.HeaderLines.{BeginsWithLine, header_lines, is_empty_line, rest_of};

use crate::field_line::continues;
use nm_text::{content, line_len};

/// The length of the first line, where it is one of the header.
pub(crate) fn header_line_len(bytes: &[u8]) -> Option<usize>
    ensures { MatchOption result (header_lines bytes.now ≡ []) (λ n. BeginsWithLine bytes.now n) }
{
    if bytes.is_empty() {
        return None;
    }
    let length = line_len(bytes);
    if is_empty_line(&bytes[..length]) {
        return None;
    }
    Some(length)
}

/// The length of the first line, where it goes on with the field before it.
pub(crate) fn folded_line_len(bytes: &[u8]) -> Option<usize>
    ensures none { MatchOption result (take_while continues (header_lines bytes.now) ≡ []) (λ n. BeginsWithLine bytes.now n) }
    ensures some { IfSome result (λ n. continues (take n bytes.now) ≡ true) }
{
    if !continues(bytes) {
        return None;
    }
    header_line_len(bytes)
}

/// The length of the empty line after a header that has no line left.
pub(crate) fn empty_line_len(bytes: &[u8]) -> usize
    requires { header_lines bytes.now ≡ [] }
    ensures value { result ≡ rest_of bytes.now }
    ensures within { result ≤ length bytes.now }
{
    if bytes.is_empty() {
        return 0;
    }
    line_len(bytes)
}

fn is_empty_line(line: &[u8]) -> bool
    ensures { result ≡ is_empty_line line.now }
{
    content(line).is_empty()
}
