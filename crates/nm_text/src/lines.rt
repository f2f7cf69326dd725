//! Lines, their ends and their content: `nm_header` and `nm_mime` cut mails with it, `nm_log` and `nm_dump` scripts and dumps.

ghost use Rattle.std.specs.Prelude.{◌≡◌, [], ◌∷◌, ◌++◌, ◌<◌, ◌≤◌, length, take, drop, IfSome, MatchOption};
ghost use Rattle.std.specs.Str.Lines.{lines, strip_carriage_return};
ghost use Rattle.nm_text.specs.Lines.{content, lines_of};

use crate::cuts::first_place;

/// The first line with its end, and what follows it.
pub fn next_line(bytes: &[u8]) -> Option<(&[u8], &[u8])>
    ensures lines { MatchOption result (lines_of bytes.now ≡ []) (λ cut. lines_of bytes.now ≡ cut.0.now ∷ lines_of cut.1.now) }
    ensures contents { MatchOption result (lines bytes.now ≡ []) (λ cut. lines bytes.now ≡ content cut.0.now ∷ lines cut.1.now) }
    ensures bytes { MatchOption result (bytes.now ≡ []) (λ cut. bytes.now ≡ cut.0.now ++ cut.1.now) }
    ensures shorter { IfSome result (λ cut. length cut.1.now < length bytes.now) }
{
    if bytes.is_empty() {
        return None;
    }
    Some(bytes.split_at(line_len(bytes)))
}

/// The first line without its end, and what follows it.
pub fn next_content(bytes: &[u8]) -> Option<(&[u8], &[u8])>
    ensures { MatchOption result (lines bytes.now ≡ []) (λ cut. (lines bytes.now ≡ cut.0.now ∷ lines cut.1.now) × (length cut.1.now < length bytes.now)) }
{
    match next_line(bytes) {
        Some((line, rest)) => Some((content(line), rest)),
        None => None,
    }
}

/// How many bytes the first line has, its end with it.
pub fn line_len(bytes: &[u8]) -> usize
    requires { 0 < length bytes.now }
    ensures first { lines_of bytes.now ≡ take result bytes.now ∷ lines_of (drop result bytes.now) }
    ensures content { lines bytes.now ≡ content (take result bytes.now) ∷ lines (drop result bytes.now) }
    ensures some { 0 < result }
    ensures within { result ≤ length bytes.now }
{
    let at = first_place(bytes, b'\n');
    if at < bytes.len() { at + 1 } else { at }
}

/// The line without its end: LF, or CR LF.
pub fn content(line: &[u8]) -> &[u8]
    ensures value { result.now ≡ content line.now }
    ensures within { length result.now ≤ length line.now }
{
    match line {
        [front @ .., b'\n'] => without_carriage_return(front),
        _ => line,
    }
}

fn without_carriage_return(line: &[u8]) -> &[u8]
    ensures value { result.now ≡ strip_carriage_return line.now }
    ensures within { length result.now ≤ length line.now }
{
    match line {
        [front @ .., b'\r'] => front,
        _ => line,
    }
}
