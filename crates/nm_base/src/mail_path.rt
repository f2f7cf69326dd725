//! Where a mail is below the mail folder: listings of `nm_maildir` make these, reads and commits take them.

ghost use Rattle.std.specs.Prelude.{◌≡◌, ◌==◌, IsTrue};
ghost use Rattle.std.specs.List.{list_all, slice_split};
ghost use Rattle.nm_base.specs.Limits.{max_path_bytes};
ghost use Rattle.nm_base.specs.Bounds.{checked};
ghost use Rattle.nm_base.specs.MailPath.{components_of, has_no_zero, is_component, is_mail_path, is_path_text};

use crate::names::fits;
use crate::{BadValue, Copies, NoMemory, Text};
use std::marker::Model;

/// Where a mail is below the mail folder: 1 to 4,096 bytes, components with `/` between them, none of which is empty,
/// `.` or `..`, and no zero byte.
#[derive(Clone, Debug, Drop, PartialEq, Eq, PartialOrd, Ord)]
pub struct MailPath {
    text: Text,
}

impl Model for MailPath {
    ghost use Rattle.std.specs.Prelude.{IsTrue, List, ℕ};
    ghost use Rattle.nm_base.specs.MailPath.{is_mail_path};

    ghost Value = { List ℕ };

    ghost view = { λ v. v.text };

    ghost invariant = { λ v. IsTrue (is_mail_path v.text) };

    ghost inverse = { λ bytes. record { text = bytes } };
}

impl MailPath {
    pub fn new(text: Text) -> Result<MailPath, BadValue>
        ensures { result ≡ checked max_path_bytes is_path_text text }
    {
        if !fits(text.as_bytes(), 4096) {
            return Err(BadValue::Length);
        }
        if !has_no_zero(text.as_bytes()) {
            return Err(BadValue::Byte);
        }
        if !has_good_components(text.as_str()) {
            return Err(BadValue::Byte);
        }
        Ok(MailPath { text })
    }

    pub fn text(&self) -> &Text
        ensures same { result.now ≡ self.now }
        ensures bounds { IsTrue (is_mail_path self.now) }
    {
        &self.text
    }
}

impl Copies for MailPath {
    fn copy(&self) -> Result<MailPath, NoMemory> {
        Ok(self.clone()?)
    }
}

fn has_no_zero(bytes: &[u8]) -> bool
    ensures { result ≡ has_no_zero bytes.now }
{
    bytes.iter().all(|b| *b != 0)
}

fn has_good_components(text: &str) -> bool
    ensures { result ≡ list_all is_component (components_of text.now) }
{
    'parts: for part in text.split('/') {
        if !is_component(part.as_bytes()) {
            return false;
        }
    }
    true
}

fn is_component(part: &[u8]) -> bool
    ensures { result ≡ is_component part.now }
{
    match part {
        [] => false,
        [b'.'] => false,
        [b'.', b'.'] => false,
        _ => true,
    }
}
