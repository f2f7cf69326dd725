//! The path that carries the flags which are asked for: `nm_flags` finds by it how `tag` renames a file.

ghost use Rattle.std.specs.Prelude.{◌≡◌, ◌++◌, ◌<◌, ◌∷◌, [], filter, true, if◌then◌else◌, IfErr, IfOk, OnOk, codes, length, string_bytes};
ghost use Rattle.nm_base.specs.Limits.{max_path_bytes};
ghost use Rattle.nm_base.specs.MailPath.{is_path_text};
ghost use Rattle.nm_name.specs.Cuts.{IsCutLast, holds};
ghost use Rattle.nm_name.specs.Names.{letters_of, name_of};
ghost use Rattle.nm_name.specs.FlaggedPath.{AreLetters, is_asked, is_carried, is_set, marked, may_be_renamed, new_letters, parent_of, placed, renamed, stem_of};

use crate::Flags;
use crate::cuts::cut_at_last;
use crate::names::{holds, is_mark, letters_of, name_of};
use nm_base::{BadValue, Copies, MailPath, NoMemory, Text};
use std::alloc::{AllocError, Global};
use thiserror::Error;

/// Why a path can't be given.
#[derive(Clone, Copy, Debug, Error)]
pub enum NameError {
    /// It would have more than 4,096 bytes.
    #[error("long")]
    Long,
    #[error("no memory")]
    NoMemory,
}

impl From<NoMemory> for NameError {
    ghost use Rattle.nm_name.specs.declared.flagged_path.NameError.TheVariants.{NoMemory as OutOfMemory};
    ghost use Rattle.std.specs.Prelude.{◌≡◌};

    ghost from_gives = { λ _ e. e ≡ OutOfMemory };

    fn from(_: NoMemory) -> NameError {
        NameError::NoMemory
    }
}

impl From<AllocError> for NameError {
    ghost use Rattle.nm_name.specs.declared.flagged_path.NameError.TheVariants.{NoMemory as OutOfMemory};
    ghost use Rattle.std.specs.Prelude.{◌≡◌};

    ghost from_gives = { λ _ e. e ≡ OutOfMemory };

    fn from(_: AllocError) -> NameError {
        NameError::NoMemory
    }
}

/// The path under which a file carries the flags: `:2,` and the letters come after its name. D, F, P, R and S follow what is asked,
/// other letters stay, and T is never set. A file in `new` that is to carry letters goes to `cur`. A file that is in neither keeps its
/// path, and so does one whose name has anything but `2,` and ASCII letters after its last `:`.
pub fn with_flags(alloc: Global, path: &MailPath, flags: Flags) -> Result<MailPath, NameError>
    ensures ok { IfOk result (λ target. target ≡ renamed path.now flags) }
    ensures long { IfErr result (λ e. e ≡ NameError.Long → max_path_bytes < length (renamed path.now flags)) }
{
    let text = path.text().as_str();
    let Some((folder, name)) = cut_at_last(text, b'/') else {
        return same(path);
    };
    if !may_be_renamed(name) {
        return same(path);
    }
    let letters = new_letters(alloc, letters_of(name), flags)?;
    placed(alloc, path, folder, name, letters.as_str())
}

fn same(path: &MailPath) -> Result<MailPath, NameError>
    ensures ok { IfOk result (λ copied. copied ≡ path.now) }
    ensures short { IfErr result (λ e. e ≡ NameError.NoMemory) }
{
    let path = path.copy()?;
    Ok(path)
}

/// The path in the folder where a file with these letters is to be.
fn placed(
    alloc: Global,
    path: &MailPath,
    folder: &str,
    name: &str,
    letters: &str,
) -> Result<MailPath, NameError>
    requires cut { IsCutLast 47 path.now (folder.now, name.now) }
    requires letters { AreLetters letters.now }
    ensures ok { IfOk result (λ target. target ≡ placed path.now folder.now name.now letters.now) }
    ensures long { IfErr result (λ e. e ≡ NameError.Long → max_path_bytes < length (placed path.now folder.now name.now letters.now)) }
{
    let kind = name_of(folder);
    if kind == "new" {
        if letters.is_empty() {
            return same(path);
        }
        return in_cur(alloc, path, folder, name, letters);
    }
    if kind == "cur" {
        if !holds(name.as_bytes(), b':') && letters.is_empty() {
            return same(path);
        }
        return in_same(alloc, path, folder, name, letters);
    }
    same(path)
}

fn may_be_renamed(name: &str) -> bool
    ensures { result ≡ may_be_renamed name.now }
{
    match cut_at_last(name, b':') {
        None => true,
        Some((_, tail)) => is_mark(tail.as_bytes()),
    }
}

/// The path of a text that is one but for its length.
#[tactic(auto, using(crate::proofs::PathLemmas::some_path))]
fn path_of(text: String) -> Result<MailPath, NameError>
    requires { is_path_text (string_bytes text) ≡ true }
    ensures ok { IfOk result (λ path. path ≡ string_bytes text) }
    ensures long { IfErr result (λ e. e ≡ NameError.Long → max_path_bytes < length (string_bytes text)) }
{
    match MailPath::new(Text::from_string(text)?) {
        Ok(path) => Ok(path),
        Err(BadValue::Length) => Err(NameError::Long),
        Err(BadValue::Byte) => unreachable!(),
    }
}

/// The file in the `cur` beside its folder.
fn in_cur(
    alloc: Global,
    path: &MailPath,
    folder: &str,
    name: &str,
    letters: &str,
) -> Result<MailPath, NameError>
    requires cut { IsCutLast 47 path.now (folder.now, name.now) }
    requires letters { AreLetters letters.now }
    ensures ok { IfOk result (λ target. target ≡ parent_of folder.now ++ codes "cur/" ++ marked name.now letters.now) }
    ensures long { IfErr result (λ e. e ≡ NameError.Long → max_path_bytes < length (parent_of folder.now ++ codes "cur/" ++ marked name.now letters.now)) }
{
    let _ = path.text();
    let text = text_in_cur(alloc, folder, name, letters)?;
    path_of(text)
}

fn text_in_cur(alloc: Global, folder: &str, name: &str, letters: &str) -> Result<String, AllocError>
    ensures { IfOk result (λ text. string_bytes text ≡ parent_of folder.now ++ codes "cur/" ++ marked name.now letters.now) }
{
    let mut text = String::new(alloc);
    push_parent(&mut text, folder)?;
    text.push_str("cur/")?;
    push_marked(&mut text, name, letters)?;
    Ok(text)
}

fn push_parent(text: &mut String, folder: &str) -> Result<(), AllocError>
    ensures { OnOk result (string_bytes text.new ≡ string_bytes text.old ++ parent_of folder.now) }
{
    if let Some((parent, _)) = cut_at_last(folder, b'/') {
        text.push_str(parent)?;
        text.push('/')?;
    }
    Ok(())
}

/// The file in the folder that it is in.
fn in_same(
    alloc: Global,
    path: &MailPath,
    folder: &str,
    name: &str,
    letters: &str,
) -> Result<MailPath, NameError>
    requires cut { IsCutLast 47 path.now (folder.now, name.now) }
    requires letters { AreLetters letters.now }
    ensures ok { IfOk result (λ target. target ≡ folder.now ++ 47 ∷ marked name.now letters.now) }
    ensures long { IfErr result (λ e. e ≡ NameError.Long → max_path_bytes < length (folder.now ++ 47 ∷ marked name.now letters.now)) }
{
    let _ = path.text();
    let text = text_in_same(alloc, folder, name, letters)?;
    path_of(text)
}

fn text_in_same(
    alloc: Global,
    folder: &str,
    name: &str,
    letters: &str,
) -> Result<String, AllocError>
    ensures { IfOk result (λ text. string_bytes text ≡ folder.now ++ 47 ∷ marked name.now letters.now) }
{
    let mut text = String::new(alloc);
    text.push_str(folder)?;
    text.push('/')?;
    push_marked(&mut text, name, letters)?;
    Ok(text)
}

fn push_marked(text: &mut String, name: &str, letters: &str) -> Result<(), AllocError>
    ensures { OnOk result (string_bytes text.new ≡ string_bytes text.old ++ marked name.now letters.now) }
{
    text.push_str(stem_of(name))?;
    text.push_str(":2,")?;
    text.push_str(letters)
}

fn stem_of(name: &str) -> &str
    ensures { result.now ≡ stem_of name.now }
{
    match cut_at_last(name, b':') {
        None => name,
        Some((stem, _)) => stem,
    }
}

/// The letters in their order.
const ALPHABET: &[u8] = b"ABCDEFGHIJKLMNOPQRSTUVWXYZabcdefghijklmnopqrstuvwxyz";

/// The letters that a name is to carry.
fn new_letters(alloc: Global, letters: &[u8], flags: Flags) -> Result<String, AllocError>
    ensures value { IfOk result (λ text. string_bytes text ≡ new_letters letters.now flags) }
    ensures letters { IfOk result (λ text. AreLetters (string_bytes text)) }
{
    carried(alloc, ALPHABET, letters, flags)
}

fn carried(
    alloc: Global,
    alphabet: &[u8],
    letters: &[u8],
    flags: Flags,
) -> Result<String, AllocError>
    ensures value { IfOk result (λ text. string_bytes text ≡ filter (is_carried letters.now flags) alphabet.now) }
    ensures letters { IfOk result (λ text. AreLetters (string_bytes text)) }
{
    let mut text = String::new(alloc);
    'letters: for letter in alphabet {
        push_if_carried(&mut text, letters, flags, *letter)?;
    }
    Ok(text)
}

fn push_if_carried(
    text: &mut String,
    letters: &[u8],
    flags: Flags,
    letter: u8,
) -> Result<(), AllocError>
    ensures value { OnOk result (string_bytes text.new ≡ string_bytes text.old ++ filter (is_carried letters.now flags) (letter ∷ [])) }
    ensures letters { AreLetters (string_bytes text.old) → OnOk result (AreLetters (string_bytes text.new)) }
{
    if is_carried(letters, flags, letter) {
        text.push(char::from(letter))?;
    }
    Ok(())
}

fn is_carried(letters: &[u8], flags: Flags, letter: u8) -> bool
    ensures { result ≡ is_carried letters.now flags letter }
{
    letter.is_ascii_alphabetic() && is_wanted(letters, flags, letter)
}

fn is_wanted(letters: &[u8], flags: Flags, letter: u8) -> bool
    ensures { result ≡ (if is_asked letter then is_set flags letter else holds letter letters.now) }
{
    if is_asked(letter) {
        return is_set(flags, letter);
    }
    holds(letters, letter)
}

fn is_set(flags: Flags, letter: u8) -> bool
    ensures { result ≡ is_set flags letter }
{
    match letter {
        b'D' => flags.draft,
        b'F' => flags.flagged,
        b'P' => flags.passed,
        b'R' => flags.replied,
        b'S' => flags.seen,
        _ => false,
    }
}

fn is_asked(letter: u8) -> bool
    ensures { result ≡ is_asked letter }
{
    holds(b"DFPRS", letter)
}
