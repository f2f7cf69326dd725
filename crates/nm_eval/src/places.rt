//! Where a file is, and of which types its parts are, for `query_test`.

ghost use Rattle.std.specs.Prelude.{◌≡◌, ◌≢◌, ◌++◌, ℕ, List, MatchOption};
ghost use Rattle.std.specs.List.{list_any};
ghost use Rattle.nm_text.specs.Cuts.{is_byte};
ghost use Rattle.nm_model_answer.specs.Places.{front_of, is_at_path, is_below, is_in, is_in_maildir, is_type};

use nm_base::{Facts, MailPath, Text};
use nm_text::{cut_at, same_ignoring_case};

/// Says whether the file is in `new` or `cur` of the folder.
pub(crate) fn is_in_maildir(folder: &Text, path: &MailPath) -> bool
    ensures { result ≡ is_in_maildir folder.now path.now }
{
    lies_in_maildir(folder.as_bytes(), path.text().as_bytes())
}

fn lies_in_maildir(folder: &[u8], path: &[u8]) -> bool
    ensures { result ≡ is_in_maildir folder.now path.now }
{
    match after_folder(folder, path) {
        Some(rest) => is_in(b"new", rest) || is_in(b"cur", rest),
        None => false,
    }
}

/// Says whether the file is in the folder, or with `deep` anywhere below it.
pub(crate) fn is_at_path(folder: &Text, deep: bool, path: &MailPath) -> bool
    ensures { result ≡ is_at_path folder.now deep path.now }
{
    if deep {
        return is_below(folder.as_bytes(), path.text().as_bytes());
    }
    is_in(folder.as_bytes(), path.text().as_bytes())
}

fn is_below(folder: &[u8], path: &[u8]) -> bool
    ensures { result ≡ is_below folder.now path.now }
{
    after_folder(folder, path).is_some()
}

fn is_in(folder: &[u8], path: &[u8]) -> bool
    ensures { result ≡ is_in folder.now path.now }
{
    match after_folder(folder, path) {
        Some(rest) => !has_slash(rest),
        None => false,
    }
}

fn has_slash(name: &[u8]) -> bool
    ensures { result ≡ list_any (is_byte 47) name.now }
{
    name.contains(&b'/')
}

/// What comes after the folder in a path that is below it; all paths are below the empty one.
fn after_folder<'a>(folder: &[u8], path: &'a [u8]) -> Option<&'a [u8]>
    ensures { MatchOption result ((rest : List ℕ) → path.now ≢ front_of folder.now ++ rest) (λ rest. path.now ≡ front_of folder.now ++ rest.now) }
{
    if folder.is_empty() {
        return Some(path);
    }
    match path.strip_prefix(folder) {
        Some(rest) => rest.strip_prefix(b"/".as_slice()),
        None => None,
    }
}

/// Says whether a part of the mail is of the type, or of one half of it.
pub(crate) fn has_type(text: &Text, facts: &Facts) -> bool
    ensures { result ≡ list_any (is_type text.now) facts.now.types }
{
    facts
        .types
        .as_slice()
        .iter()
        .any(|found| is_type(text, found))
}

fn is_type(text: &Text, found: &Text) -> bool
    ensures { result ≡ is_type text.now found.now }
{
    if same_ignoring_case(text.as_bytes(), found.as_bytes()) {
        return true;
    }
    match cut_at(found.as_str(), b'/') {
        Some((before, after)) => {
            same_ignoring_case(text.as_bytes(), before.as_bytes())
                || same_ignoring_case(text.as_bytes(), after.as_bytes())
        }
        None => false,
    }
}
