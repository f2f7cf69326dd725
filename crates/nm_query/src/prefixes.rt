//! The prefixes of terms, for `lexeme`.

ghost use Rattle.std.specs.Prelude.{◌≡◌, ◌<◌, Some, None, MatchOption, drop, false, length, true};
ghost use Rattle.nm_query.specs.Prefixes.{CutsOff, begins, begins_what_is_not_here, field_prefix, folder_prefix, tag_prefix};

use nm_base::Field;

/// What a value is the name of.
#[derive(Clone, Copy)]
pub(crate) enum Name {
    Tag,
    /// A tag, whose name is never a pattern.
    Is,
    Id,
    Thread,
    Folder,
    Path,
    Mime,
    Date,
}

/// A field, and how many bytes its prefix has.
#[derive(Clone, Copy)]
pub(crate) struct FieldPrefix {
    pub field: Field,
    pub len: usize,
}

/// A name, and how many bytes its prefix has.
#[derive(Clone, Copy)]
pub(crate) struct NamePrefix {
    pub name: Name,
    pub len: usize,
}

/// What comes after the front, where the text begins with that.
fn after<'a>(text: &'a str, front: &str) -> Option<&'a str>
    requires { 0 < length front.now }
    ensures { MatchOption result (begins front.now text.now ≡ false)
        (λ rest. (begins front.now text.now ≡ true) × (rest.now ≡ drop (length front.now) text.now) × CutsOff text.now (length front.now)) }
{
    if !text.as_bytes().starts_with(front.as_bytes()) {
        return None;
    }
    Some(&text[front.len()..])
}

/// The field with whose prefix the text begins, and what comes after that.
pub(crate) fn field_prefix(text: &str) -> Option<(FieldPrefix, &str)>
    ensures { MatchOption result (field_prefix text.now ≡ None)
        (λ found. (field_prefix text.now ≡ Some found.0) × (found.1.now ≡ drop found.0.len text.now) × CutsOff text.now found.0.len) }
{
    if let Some(rest) = after(text, "from:") {
        return Some((
            FieldPrefix {
                field: Field::From,
                len: 5,
            },
            rest,
        ));
    }
    if let Some(rest) = after(text, "to:") {
        return Some((
            FieldPrefix {
                field: Field::To,
                len: 3,
            },
            rest,
        ));
    }
    if let Some(rest) = after(text, "subject:") {
        return Some((
            FieldPrefix {
                field: Field::Subject,
                len: 8,
            },
            rest,
        ));
    }
    if let Some(rest) = after(text, "body:") {
        return Some((
            FieldPrefix {
                field: Field::Body,
                len: 5,
            },
            rest,
        ));
    }
    if let Some(rest) = after(text, "attachment:") {
        return Some((
            FieldPrefix {
                field: Field::Attachment,
                len: 11,
            },
            rest,
        ));
    }
    None
}

/// The tag, id or thread with whose prefix the text begins, and what comes after that.
pub(crate) fn tag_prefix(text: &str) -> Option<(NamePrefix, &str)>
    ensures { MatchOption result (tag_prefix text.now ≡ None)
        (λ found. (tag_prefix text.now ≡ Some found.0) × (found.1.now ≡ drop found.0.len text.now) × CutsOff text.now found.0.len) }
{
    if let Some(rest) = after(text, "tag:") {
        return Some((
            NamePrefix {
                name: Name::Tag,
                len: 4,
            },
            rest,
        ));
    }
    if let Some(rest) = after(text, "is:") {
        return Some((
            NamePrefix {
                name: Name::Is,
                len: 3,
            },
            rest,
        ));
    }
    if let Some(rest) = after(text, "id:") {
        return Some((
            NamePrefix {
                name: Name::Id,
                len: 3,
            },
            rest,
        ));
    }
    if let Some(rest) = after(text, "mid:") {
        return Some((
            NamePrefix {
                name: Name::Id,
                len: 4,
            },
            rest,
        ));
    }
    if let Some(rest) = after(text, "thread:") {
        return Some((
            NamePrefix {
                name: Name::Thread,
                len: 7,
            },
            rest,
        ));
    }
    None
}

/// The folder, path, type or date with whose prefix the text begins, and what comes after that.
pub(crate) fn folder_prefix(text: &str) -> Option<(NamePrefix, &str)>
    ensures { MatchOption result (folder_prefix text.now ≡ None)
        (λ found. (folder_prefix text.now ≡ Some found.0) × (found.1.now ≡ drop found.0.len text.now) × CutsOff text.now found.0.len) }
{
    if let Some(rest) = after(text, "folder:") {
        return Some((
            NamePrefix {
                name: Name::Folder,
                len: 7,
            },
            rest,
        ));
    }
    if let Some(rest) = after(text, "path:") {
        return Some((
            NamePrefix {
                name: Name::Path,
                len: 5,
            },
            rest,
        ));
    }
    if let Some(rest) = after(text, "mimetype:") {
        return Some((
            NamePrefix {
                name: Name::Mime,
                len: 9,
            },
            rest,
        ));
    }
    if let Some(rest) = after(text, "date:") {
        return Some((
            NamePrefix {
                name: Name::Date,
                len: 5,
            },
            rest,
        ));
    }
    None
}

/// Whether the text begins with a prefix whose terms are not there.
pub(crate) fn begins_what_is_not_here(text: &[u8]) -> bool
    ensures { result ≡ begins_what_is_not_here text.now }
{
    text.starts_with(b"lastmod:") || text.starts_with(b"query:") || text.starts_with(b"property:")
}
