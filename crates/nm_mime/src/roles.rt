//! How a part is encoded, whether it is attached, and what becomes of it, for `part_header`.

ghost use Rattle.std.specs.Prelude.{◌≡◌, ◌&&◌, ◌||◌, IfOk, position};
ghost use Rattle.std.specs.List.{before_first};
ghost use Rattle.std.specs.Option.{option_map};
ghost use Rattle.nm_base.specs.Bounds.{fits_length};
ghost use Rattle.nm_decode.specs.EncodedWords.{words_decoded};
ghost use Rattle.nm_mime.specs.Roles.{encoding_of, ends_token, filename_of, is_attachment, is_message, is_multipart, is_plain, is_too_deep, is_tspecial, role_of};

use crate::param_list::{Param, param_text, params};
use nm_base::{NoMemory, Text};
use nm_decode::encoded_words;
use nm_text::{is_printable, same_ignoring_case, trimmed};
use std::alloc::Global;

/// How the content of a part is encoded (RFC 2045, section 6).
#[derive(Clone, Copy)]
pub enum Encoding {
    /// Not at all, or in a way that is not known.
    Plain,
    Quoted,
    Base64,
}

/// What becomes of a part.
#[derive(Clone, Copy, PartialEq, Eq)]
pub enum Role {
    /// Its content is read as parts.
    Opened,
    /// Its content is text.
    Readable,
    Unread,
    /// It signs the part before it.
    Signature,
}

/// The encoding that the text of a Content-Transfer-Encoding names.
pub(crate) fn named_encoding(text: &[u8]) -> Encoding
    ensures { result ≡ encoding_of text.now }
{
    let name = trimmed(text);
    if same_ignoring_case(name, b"quoted-printable") {
        return Encoding::Quoted;
    }
    if same_ignoring_case(name, b"base64") {
        return Encoding::Base64;
    }
    Encoding::Plain
}

/// Whether a Content-Disposition begins with the token `attachment`.
pub(crate) fn is_attachment(disposition: &[u8]) -> bool
    ensures { result ≡ is_attachment disposition.now }
{
    same_ignoring_case(token(disposition), b"attachment")
}

fn token(text: &[u8]) -> &[u8]
    ensures { result.now ≡ before_first ends_token text.now }
{
    match token_end(text) {
        Some(at) => &text[..at],
        None => text,
    }
}

fn token_end(text: &[u8]) -> Option<usize>
    ensures { result ≡ position ends_token text.now }
{
    text.iter().position(|b| ends_token(*b))
}

fn ends_token(b: u8) -> bool
    ensures { result ≡ ends_token b }
{
    if !is_printable(b) {
        return true;
    }
    is_tspecial(b)
}

fn is_tspecial(b: u8) -> bool
    ensures { result ≡ is_tspecial b }
{
    b"()<>@,;:\\\"/[]?=".contains(&b)
}

/// The name of an attached part's file; `params` are those of its type.
pub(crate) fn filename(
    alloc: Global,
    disposition: &str,
    of_type: &[Param],
) -> Result<Option<Text>, NoMemory>
    ensures { IfOk result (λ name. name ≡ filename_of disposition.now of_type.now) }
{
    if !is_attachment(disposition.as_bytes()) {
        return Ok(None);
    }
    let own = params(alloc, disposition.as_bytes())?;
    match param_text(alloc, own.as_slice(), "filename")? {
        Some(name) => words_decoded(alloc, Some(name)),
        None => {
            let name = param_text(alloc, of_type, "name")?;
            words_decoded(alloc, name)
        }
    }
}

/// The name with its encoded words decoded.
fn words_decoded(alloc: Global, name: Option<Text>) -> Result<Option<Text>, NoMemory>
    ensures { IfOk result (λ shown. shown ≡ option_map words_decoded name) }
{
    match name {
        None => Ok(None),
        Some(text) => {
            let shown = encoded_words(alloc, text.as_str())?;
            Ok(Some(shown))
        }
    }
}

/// What becomes of a part: the first rule that fits.
pub(crate) fn fitting_role(
    attached: bool,
    signature: bool,
    depth: u32,
    kind: &str,
    boundary: &str,
    encoding: Encoding,
) -> Role
    ensures { result ≡ role_of attached signature depth kind.now boundary.now encoding }
{
    if attached {
        return Role::Unread;
    }
    if signature {
        return Role::Signature;
    }
    if kind == "multipart/encrypted" {
        return Role::Unread;
    }
    if is_too_deep(depth, kind) {
        return Role::Unread;
    }
    if is_multipart(kind) && fits(boundary) {
        return Role::Opened;
    }
    if is_message(kind) && is_plain(encoding) {
        return Role::Opened;
    }
    if kind.as_bytes().starts_with(b"text/") {
        return Role::Readable;
    }
    Role::Unread
}

fn is_too_deep(depth: u32, kind: &str) -> bool
    ensures { result ≡ is_too_deep depth kind.now }
{
    if depth < 32 {
        return false;
    }
    if is_multipart(kind) {
        return true;
    }
    is_message(kind)
}

pub(crate) fn is_multipart(kind: &str) -> bool
    ensures { result ≡ is_multipart kind.now }
{
    kind.as_bytes().starts_with(b"multipart/")
}

fn is_message(kind: &str) -> bool
    ensures { result ≡ is_message kind.now }
{
    kind == "message/rfc822"
}

fn is_plain(encoding: Encoding) -> bool
    ensures { result ≡ is_plain encoding }
{
    matches!(encoding, Encoding::Plain)
}

/// Whether a boundary has 1 to 200 bytes.
fn fits(boundary: &str) -> bool
    ensures { result ≡ fits_length 200 boundary.now }
{
    1 <= boundary.len() && boundary.len() <= 200
}
