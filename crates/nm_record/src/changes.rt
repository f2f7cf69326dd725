//! Changes in bytes: a commit is a list of them in `commits`.

ghost use Rattle.std.specs.Prelude.{◌≡◌, ◌++◌, ◌<◌, ◌^◌, length, min, OnOk};
ghost use Rattle.nm_base.specs.Limits.{is_date, max_count};
ghost use Rattle.nm_commit.specs.declared.change.Change.{Change};
ghost use Rattle.nm_codec.specs.ReadSteps.{GivesUnlessNoMemory, mapped_at};
ghost use Rattle.nm_record.specs.CommitGrammar.{change_grammar};
ghost use Rattle.nm_record.specs.Commits.{arrival_grammar, change_at, change_bytes, has_date, kind_at, move_grammar, tagging_grammar};
ghost use Rattle.nm_record.specs.Facts.{path_grammar};

use crate::facts::FactsFormat;
use crate::names::{IdFormat, PathFormat};
use crate::tag_list::TagsFormat;
use nm_base::{Facts, MailPath, NoMemory};
use nm_codec::{Format, Pair, ReadError, Reader, Writer};
use nm_commit::Change;
use nm_shared::Shared;
use std::alloc::Global;

pub(crate) struct ChangeFormat;

const ADD: u8 = 1;

const DROP: u8 = 2;

const MOVE: u8 = 3;

const SET_TAGS: u8 = 4;

impl Format for ChangeFormat {
    type Value = Change;

    ghost grammar = { change_grammar };

    ghost asked = { has_date };

    #[tactic(auto, unfolding(crate::specs::Commits::change_at))]
    fn read(alloc: Global, reader: &mut Reader<'_>) -> Result<Change, ReadError> {
        let at = reader.at();
        match reader.u8()? {
            ADD => read_add(alloc, reader),
            DROP => read_drop(alloc, reader),
            MOVE => read_move(alloc, reader),
            SET_TAGS => read_set_tags(alloc, reader),
            _ => Err(ReadError::Bad { at }),
        }
    }

    fn len(value: &Change) -> u64 {
        match value {
            Change::Add { path, facts } => arrival_len(path, facts.get()).saturating_add(1),
            Change::Drop { path } => PathFormat::len(path).saturating_add(1),
            Change::Move { from, to } => PathFormat::len(from)
                .saturating_add(PathFormat::len(to))
                .saturating_add(1),
            Change::SetTags { id, tags } => IdFormat::len(id)
                .saturating_add(TagsFormat::len(tags))
                .saturating_add(1),
        }
    }

    fn write(value: &Change, writer: &mut Writer) -> Result<(), NoMemory> {
        match value {
            Change::Add { path, facts } => {
                writer.put_u8(ADD)?;
                write_arrival(path, facts, writer)?;
                Ok(())
            }
            Change::Drop { path } => {
                writer.put_u8(DROP)?;
                PathFormat::write(path, writer)?;
                Ok(())
            }
            Change::Move { from, to } => {
                writer.put_u8(MOVE)?;
                PathFormat::write(from, writer)?;
                PathFormat::write(to, writer)?;
                Ok(())
            }
            Change::SetTags { id, tags } => {
                writer.put_u8(SET_TAGS)?;
                IdFormat::write(id, writer)?;
                TagsFormat::write(tags, writer)?;
                Ok(())
            }
        }
    }
}

fn arrival_len(path: &MailPath, facts: &Facts) -> u64
    ensures len { result ≡ min (length (arrival_grammar.bytes (path.now, facts.now))) max_count }
    ensures value { arrival_grammar.is_value (path.now, facts.now) ≡ is_date facts.now.date }
{
    PathFormat::len(path).saturating_add(FactsFormat::len(facts))
}

fn write_arrival(
    path: &MailPath,
    facts: &Shared<Facts>,
    writer: &mut Writer,
) -> Result<(), NoMemory>
    requires { length (arrival_grammar.bytes (path.now, facts.now)) < 2 ^ 32 }
    ensures { OnOk result (writer.new ≡ writer.old ++ arrival_grammar.bytes (path.now, facts.now)) }
{
    write_file(path, facts.get(), writer)
}

fn write_file(path: &MailPath, facts: &Facts, writer: &mut Writer) -> Result<(), NoMemory>
    requires { length (arrival_grammar.bytes (path.now, facts.now)) < 2 ^ 32 }
    ensures { OnOk result (writer.new ≡ writer.old ++ arrival_grammar.bytes (path.now, facts.now)) }
{
    PathFormat::write(path, writer)?;
    FactsFormat::write(facts, writer)?;
    Ok(())
}

#[tactic(auto, unfolding(nm_codec::specs::ReadSteps::mapped_at))]
fn read_add(alloc: Global, reader: &mut Reader<'_>) -> Result<Change, ReadError>
    ensures { GivesUnlessNoMemory reader.old result reader.new (mapped_at (λ p. Change.Add p.0 p.1) arrival_grammar.read reader.old.rest) }
{
    let (path, facts) = <Pair<PathFormat, FactsFormat> as Format>::read(alloc, reader)?;
    let facts = Shared::new(alloc, facts)?;
    Ok(Change::Add { path, facts })
}

#[tactic(auto, unfolding(nm_codec::specs::ReadSteps::mapped_at))]
fn read_drop(alloc: Global, reader: &mut Reader<'_>) -> Result<Change, ReadError>
    ensures { GivesUnlessNoMemory reader.old result reader.new (mapped_at Change.Drop path_grammar.read reader.old.rest) }
{
    let path = PathFormat::read(alloc, reader)?;
    Ok(Change::Drop { path })
}

#[tactic(auto, unfolding(nm_codec::specs::ReadSteps::mapped_at))]
fn read_move(alloc: Global, reader: &mut Reader<'_>) -> Result<Change, ReadError>
    ensures { GivesUnlessNoMemory reader.old result reader.new (mapped_at (λ p. Change.Move p.0 p.1) move_grammar.read reader.old.rest) }
{
    let (from, to) = <Pair<PathFormat, PathFormat> as Format>::read(alloc, reader)?;
    Ok(Change::Move { from, to })
}

#[tactic(auto, unfolding(nm_codec::specs::ReadSteps::mapped_at))]
fn read_set_tags(alloc: Global, reader: &mut Reader<'_>) -> Result<Change, ReadError>
    ensures { GivesUnlessNoMemory reader.old result reader.new (mapped_at (λ p. Change.SetTags p.0 p.1) tagging_grammar.read reader.old.rest) }
{
    let (id, tags) = <Pair<IdFormat, TagsFormat> as Format>::read(alloc, reader)?;
    Ok(Change::SetTags { id, tags })
}
