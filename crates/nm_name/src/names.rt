//! The flags that a name carries: `nm_flags` makes tags of them, and `with_flags` asks for them.

ghost use Rattle.std.specs.Prelude.{◌≡◌};
ghost use Rattle.std.specs.List.{list_all};
ghost use Rattle.std.specs.Char.{is_ascii_alphabetic};
ghost use Rattle.nm_name.specs.Cuts.{holds};
ghost use Rattle.nm_name.specs.Names.{flags_of, flags_of_letters, is_mark, letters_of, name_of};

use crate::Flags;
use crate::cuts::cut_at_last;
use nm_base::MailPath;

/// The flags of a path: of the letters after the last `:2,` of its last component. Where other bytes than ASCII letters
/// are there it has none. D is draft, F flagged, P passed, R replied, S seen, T trashed.
pub fn parse_name(path: &MailPath) -> Flags
    ensures { result ≡ flags_of path.now }
{
    let letters = letters_of(name_of(path.text().as_str()));
    Flags {
        draft: holds(letters, b'D'),
        flagged: holds(letters, b'F'),
        passed: holds(letters, b'P'),
        replied: holds(letters, b'R'),
        seen: holds(letters, b'S'),
        trashed: holds(letters, b'T'),
    }
}

/// The last component of a path.
pub(crate) fn name_of(path: &str) -> &str
    ensures { result.now ≡ name_of path.now }
{
    match cut_at_last(path, b'/') {
        None => path,
        Some((_, name)) => name,
    }
}

/// The letters of a name.
pub(crate) fn letters_of(name: &str) -> &[u8]
    ensures { result.now ≡ letters_of name.now }
{
    match cut_at_last(name, b':') {
        None => b"",
        Some((_, tail)) => {
            if is_mark(tail.as_bytes()) {
                return &tail.as_bytes()[2..];
            }
            b""
        }
    }
}

/// `2,` and ASCII letters.
pub(crate) fn is_mark(tail: &[u8]) -> bool
    ensures { result ≡ is_mark tail.now }
{
    tail.starts_with(b"2,") && are_letters(&tail[2..])
}

fn are_letters(bytes: &[u8]) -> bool
    ensures { result ≡ list_all is_ascii_alphabetic bytes.now }
{
    bytes.iter().all(|b| b.is_ascii_alphabetic())
}

pub(crate) fn holds(bytes: &[u8], wanted: u8) -> bool
    ensures { result ≡ holds wanted bytes.now }
{
    bytes.iter().any(|b| *b == wanted)
}
