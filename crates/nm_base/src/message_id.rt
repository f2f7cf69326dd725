//! What names a message; `nm_header` and `nm_extract` make it.

ghost use Rattle.std.specs.Prelude.{◌≡◌, IsTrue};
ghost use Rattle.std.specs.List.{list_all};
ghost use Rattle.nm_base.specs.Bounds.{checked};
ghost use Rattle.nm_base.specs.MessageId.{is_id_byte, is_id_text, is_message_id};

use crate::names::fits;
use crate::{BadValue, Copies, NoMemory, Text};
use std::marker::Model;

/// What names a message: 1 to 1,000 bytes, none of them white space, `<` or `>`.
#[derive(Clone, Drop, PartialEq, Eq, PartialOrd, Ord)]
pub struct MessageId {
    text: Text,
}

impl Model for MessageId {
    ghost use Rattle.std.specs.Prelude.{IsTrue, List, ℕ};
    ghost use Rattle.nm_base.specs.MessageId.{is_message_id};

    ghost Value = { List ℕ };

    ghost view = { λ v. v.text };

    ghost invariant = { λ v. IsTrue (is_message_id v.text) };

    ghost inverse = { λ bytes. record { text = bytes } };
}

impl MessageId {
    pub fn new(text: Text) -> Result<MessageId, BadValue>
        ensures { result ≡ checked 1000 is_id_text text }
    {
        if !fits(text.as_bytes(), 1000) {
            return Err(BadValue::Length);
        }
        if !is_id_text(text.as_bytes()) {
            return Err(BadValue::Byte);
        }
        Ok(MessageId { text })
    }

    pub fn text(&self) -> &Text
        ensures same { result.now ≡ self.now }
        ensures bounds { IsTrue (is_message_id self.now) }
    {
        &self.text
    }
}

impl Copies for MessageId {
    fn copy(&self) -> Result<MessageId, NoMemory> {
        Ok(self.clone()?)
    }
}

fn is_id_text(bytes: &[u8]) -> bool
    ensures { result ≡ is_id_text bytes.now }
{
    bytes.iter().all(|b| is_id_byte(*b))
}

fn is_id_byte(b: u8) -> bool
    ensures { result ≡ is_id_byte b }
{
    !matches!(b, b' ' | b'\t' | b'\r' | b'\n' | b'<' | b'>')
}
