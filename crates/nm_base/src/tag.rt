//! What a user may set on a message: a `TagOp` changes one, a set of `tags` has some.

ghost use Rattle.std.specs.Prelude.{◌≡◌, IsTrue};
ghost use Rattle.nm_base.specs.Bounds.{checked};
ghost use Rattle.nm_base.specs.Tag.{is_tag, is_tag_text};

use crate::names::fits;
use crate::{BadValue, Copies, NoMemory, Text};
use std::marker::Model;

/// A tag: 1 to 200 bytes, the first of them no `-`.
#[derive(Clone, Drop, PartialEq, Eq, PartialOrd, Ord)]
pub struct Tag {
    text: Text,
}

impl Model for Tag {
    ghost use Rattle.std.specs.Prelude.{IsTrue, List, ℕ};
    ghost use Rattle.nm_base.specs.Tag.{is_tag};

    ghost Value = { List ℕ };

    ghost view = { λ v. v.text };

    ghost invariant = { λ v. IsTrue (is_tag v.text) };

    ghost inverse = { λ bytes. record { text = bytes } };
}

impl Tag {
    pub fn new(text: Text) -> Result<Tag, BadValue>
        ensures { result ≡ checked 200 is_tag_text text }
    {
        if !fits(text.as_bytes(), 200) {
            return Err(BadValue::Length);
        }
        if !is_tag_text(text.as_bytes()) {
            return Err(BadValue::Byte);
        }
        Ok(Tag { text })
    }

    pub fn text(&self) -> &Text
        ensures same { result.now ≡ self.now }
        ensures bounds { IsTrue (is_tag self.now) }
    {
        &self.text
    }
}

impl Copies for Tag {
    fn copy(&self) -> Result<Tag, NoMemory> {
        Ok(self.clone()?)
    }
}

fn is_tag_text(bytes: &[u8]) -> bool
    ensures { result ≡ is_tag_text bytes.now }
{
    match bytes {
        [] => true,
        [first, ..] => *first != b'-',
    }
}
