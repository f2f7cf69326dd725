//! Commits in bytes: `nm_writer` has the journal keep them, and reads them back where it replays.

ghost use Rattle.std.specs.Prelude.{◌≡◌, ◌&&◌, ◌++◌, ◌<◌, ◌^◌, ℕ, List, length, min, nat_lt, true, IfOk, OnOk};
ghost use Rattle.std.specs.List.{list_all};
ghost use Rattle.nm_base.specs.Limits.{max_count};
ghost use Rattle.nm_base.specs.declared.facts.Facts.{Facts};
ghost use Rattle.nm_commit.specs.Files.{Fits};
ghost use Rattle.nm_commit.specs.declared.change.Commit.{Commit};
ghost use Rattle.nm_codec.specs.ReadSteps.{AnswersUnlessNoMemory, all_of};
ghost use Rattle.nm_record.specs.CommitGrammar.{commit_grammar};
ghost use Rattle.nm_record.specs.Commits.{change_bytes, has_date};

use crate::changes::ChangeFormat;
use nm_base::{Many, NoMemory, SharedBytes};
use nm_codec::{Format, ListOf, ReadError, Reader, Writer};
use nm_commit::{Change, Commit};
use std::alloc::Global;

/// How many bytes the one encoding of a commit has, up to 2^64 - 1. It takes no memory.
pub fn commit_len(commit: &Commit) -> u64
    ensures len { result ≡ min (length (commit_grammar.bytes commit.now)) max_count }

    // Each part of a commit obeys its type, so one that fits some files has the values that a commit may have.
    ensures value { (files : List (List ℕ × Facts)) → Fits files commit.now → commit_grammar.is_value commit.now ≡ true }
{
    CommitFormat::len(commit)
}

/// Writes the one encoding of a commit, which has fewer than 2 ^ 32 bytes.
pub fn write_commit(commit: &Commit, writer: &mut Writer) -> Result<(), NoMemory>
    requires { length (commit_grammar.bytes commit.now) < 2 ^ 32 }
    ensures { OnOk result (writer.new ≡ writer.old ++ commit_grammar.bytes commit.now) }
{
    CommitFormat::write(commit, writer)
}

/// The one encoding of a commit, which has fewer than 2 ^ 32 bytes.
pub fn commit_bytes(alloc: Global, commit: &Commit) -> Result<Many<u8>, NoMemory>
    requires { length (commit_grammar.bytes commit.now) < 2 ^ 32 }
    ensures { IfOk result (λ bytes. bytes ≡ commit_grammar.bytes commit.now) }
{
    let mut writer = Writer::new(alloc);
    write_commit(commit, &mut writer)?;
    Ok(writer.finish())
}

/// The one encoding of a change. A commit is the count of its changes in four bytes, and then all of them.
pub fn change_bytes(alloc: Global, change: &Change) -> Result<Many<u8>, NoMemory>
    ensures { IfOk result (λ bytes. bytes ≡ change_bytes change.now) }
{
    // No commit has room for it.
    if ChangeFormat::len(change) > u64::from(u32::MAX) {
        return Err(NoMemory);
    }
    let mut writer = Writer::new(alloc);
    ChangeFormat::write(change, &mut writer)?;
    Ok(writer.finish())
}

/// The commit that all the bytes encode, or the place of the first byte that no commit has there.
pub fn read_commit(alloc: Global, bytes: &[u8]) -> Result<Commit, ReadError>
    // What is read was written so, and has the values of a commit.
    ensures found { IfOk result (λ commit. (bytes.now ≡ commit_grammar.bytes commit) × (commit_grammar.is_value commit ≡ true)) }

    // What is written of a commit is read as it.
    ensures only { (commit : Commit) → commit_grammar.is_value commit ≡ true → length (commit_grammar.bytes commit) < 2 ^ 32
        → bytes.now ≡ commit_grammar.bytes commit → AnswersUnlessNoMemory bytes.now result (Ok commit) }

    // Where the first byte is that is not of a commit.
    ensures exact { AnswersUnlessNoMemory bytes.now result (all_of commit_grammar.read bytes.now) }
{
    read_whole(alloc, bytes, &mut Reader::new(bytes))
}

/// The same of bytes that several hold: words that are ASCII stay in them, and are not copied.
pub fn read_shared_commit(alloc: Global, bytes: &SharedBytes) -> Result<Commit, ReadError>
    ensures found { IfOk result (λ commit. (bytes.now ≡ commit_grammar.bytes commit) × (commit_grammar.is_value commit ≡ true)) }
    ensures only { (commit : Commit) → commit_grammar.is_value commit ≡ true → length (commit_grammar.bytes commit) < 2 ^ 32
        → bytes.now ≡ commit_grammar.bytes commit → AnswersUnlessNoMemory bytes.now result (Ok commit) }
    ensures exact { AnswersUnlessNoMemory bytes.now result (all_of commit_grammar.read bytes.now) }
{
    read_whole(alloc, bytes.as_slice(), &mut Reader::over(bytes))
}

/// Reads all the bytes, at whose front the reader is.
fn read_whole(alloc: Global, bytes: &[u8], reader: &mut Reader<'_>) -> Result<Commit, ReadError>
    requires front { reader.old ≡ record { len = length bytes.now; rest = bytes.now } }
    ensures found { IfOk result (λ commit. (bytes.now ≡ commit_grammar.bytes commit) × (commit_grammar.is_value commit ≡ true)) }
    ensures only { (commit : Commit) → commit_grammar.is_value commit ≡ true → length (commit_grammar.bytes commit) < 2 ^ 32
        → bytes.now ≡ commit_grammar.bytes commit → AnswersUnlessNoMemory bytes.now result (Ok commit) }
    ensures exact { AnswersUnlessNoMemory bytes.now result (all_of commit_grammar.read bytes.now) }
{
    read_to_end(alloc, reader)
}

#[tactic(auto, unfolding(nm_codec::specs::ReadSteps::all_of))]
fn read_to_end(alloc: Global, reader: &mut Reader<'_>) -> Result<Commit, ReadError>
    requires { reader.old.len ≡ length reader.old.rest }
    ensures { AnswersUnlessNoMemory reader.old.rest result (all_of commit_grammar.read reader.old.rest) }
{
    let commit = CommitFormat::read(alloc, reader)?;
    reader.end()?;
    Ok(commit)
}

/// A list of changes, at least one.
struct CommitFormat;

impl Format for CommitFormat {
    type Value = Commit;

    ghost grammar = { commit_grammar };

    ghost asked = { λ commit. list_all has_date commit.changes && nat_lt 0 (length commit.changes) };

    #[tactic(auto, unfolding(nm_codec::specs::ReadSteps::tested_at, nm_codec::specs::ReadSteps::mapped_at))]
    fn read(alloc: Global, reader: &mut Reader<'_>) -> Result<Commit, ReadError> {
        let at = reader.at();
        let changes = <ListOf<ChangeFormat> as Format>::read(alloc, reader)?;
        if changes.len() > 0 {
            return Ok(Commit { changes });
        }
        Err(ReadError::Bad { at })
    }

    fn len(value: &Commit) -> u64 {
        <ListOf<ChangeFormat> as Format>::len(&value.changes)
    }

    fn write(value: &Commit, writer: &mut Writer) -> Result<(), NoMemory> {
        <ListOf<ChangeFormat> as Format>::write(&value.changes, writer)
    }
}
