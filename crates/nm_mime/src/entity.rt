//! A part, before its header is read and after; `parts` makes both.

use crate::roles::{Encoding, Role};
use nm_base::Text;

/// A part of a mail, or the mail itself.
#[derive(Clone, Drop)]
pub struct Part {
    /// How many parts it is in.
    pub depth: u32,
    /// `type/subtype`, in lower case.
    pub kind: Text,
    /// As it is written; empty where the type names none.
    pub charset: Text,
    pub encoding: Encoding,
    pub attached: bool,
    /// Of an attached part alone.
    pub filename: Option<Text>,
    pub role: Role,
    /// Where its content begins in the mail, after its header.
    pub from: usize,
    /// Where it ends.
    pub to: usize,
}

/// A part with its header, still unread: where it begins and ends in the mail.
#[derive(Clone, Copy)]
pub struct Entity {
    pub depth: u32,
    pub from: usize,
    pub to: usize,
    /// It is in a digest.
    pub digest: bool,
    /// It is the second part of a multipart/signed.
    pub signature: bool,
}

/// A part, and the boundary that its type names, or nothing.
#[derive(Drop)]
pub struct Opening {
    pub part: Part,
    pub boundary: Text,
}
