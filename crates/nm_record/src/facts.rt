//! The facts of a mail in bytes, for `changes`: a mail that comes has them.

ghost use Rattle.std.specs.Prelude.{◌≡◌, ◌++◌, ◌<◌, ◌^◌, length, min, true, OnOk};
ghost use Rattle.nm_base.specs.Limits.{is_date, max_count};
ghost use Rattle.nm_record.specs.Codes.{marks_code, marks_of};
ghost use Rattle.nm_record.specs.Facts.{content_grammar, content_parts, date_grammar, facts_grammar, field_grammar, field_words_grammar, heading_grammar, heading_parts, mailbox_grammar, marks_grammar};

use crate::names::IdFormat;
use nm_base::{Facts, Field, FieldWords, Mailbox, Marks, NoMemory, is_date};
use nm_codec::{Format, ListOf, Pair, ReadError, Reader, TextFormat, WordsFormat, Writer};
use std::alloc::Global;

pub(crate) struct FactsFormat;

struct MailboxFormat;

struct FieldFormat;

struct FieldWordsFormat;

struct DateFormat;

struct MarksFormat;

impl Format for MailboxFormat {
    type Value = Mailbox;

    ghost grammar = { mailbox_grammar };

    ghost asked = { λ mailbox. true };

    #[tactic(auto, unfolding(nm_codec::specs::ReadSteps::mapped_at))]
    fn read(alloc: Global, reader: &mut Reader<'_>) -> Result<Mailbox, ReadError> {
        let (name, address) = <Pair<TextFormat, TextFormat> as Format>::read(alloc, reader)?;
        Ok(Mailbox { name, address })
    }

    fn len(value: &Mailbox) -> u64 {
        TextFormat::len(&value.name).saturating_add(TextFormat::len(&value.address))
    }

    fn write(value: &Mailbox, writer: &mut Writer) -> Result<(), NoMemory> {
        TextFormat::write(&value.name, writer)?;
        TextFormat::write(&value.address, writer)
    }
}

impl Format for FieldFormat {
    type Value = Field;

    ghost grammar = { field_grammar };

    ghost asked = { λ field. true };

    #[tactic(auto, unfolding(nm_codec::specs::ReadSteps::coded_at))]
    fn read(_: Global, reader: &mut Reader<'_>) -> Result<Field, ReadError> {
        let at = reader.at();
        match reader.u8()? {
            0 => Ok(Field::From),
            1 => Ok(Field::To),
            2 => Ok(Field::Subject),
            3 => Ok(Field::Body),
            4 => Ok(Field::Attachment),
            _ => Err(ReadError::Bad { at }),
        }
    }

    fn len(_: &Field) -> u64 {
        1
    }

    fn write(value: &Field, writer: &mut Writer) -> Result<(), NoMemory> {
        writer.put_u8(value.number())
    }
}

impl Format for FieldWordsFormat {
    type Value = FieldWords;

    ghost grammar = { field_words_grammar };

    ghost asked = { λ list. true };

    #[tactic(auto, unfolding(nm_codec::specs::ReadSteps::mapped_at))]
    fn read(alloc: Global, reader: &mut Reader<'_>) -> Result<FieldWords, ReadError> {
        let (field, words) = <Pair<FieldFormat, WordsFormat> as Format>::read(alloc, reader)?;
        Ok(FieldWords { field, words })
    }

    fn len(value: &FieldWords) -> u64 {
        FieldFormat::len(&value.field).saturating_add(WordsFormat::len(&value.words))
    }

    fn write(value: &FieldWords, writer: &mut Writer) -> Result<(), NoMemory> {
        FieldFormat::write(&value.field, writer)?;
        WordsFormat::write(&value.words, writer)
    }
}

impl Format for DateFormat {
    type Value = i64;

    ghost grammar = { date_grammar };

    ghost asked = { is_date };

    #[tactic(auto, unfolding(nm_codec::specs::ReadSteps::tested_at))]
    fn read(_: Global, reader: &mut Reader<'_>) -> Result<i64, ReadError> {
        let at = reader.at();
        let date = reader.i64()?;
        if is_date(date) {
            return Ok(date);
        }
        Err(ReadError::Bad { at })
    }

    fn len(_: &i64) -> u64 {
        8
    }

    fn write(value: &i64, writer: &mut Writer) -> Result<(), NoMemory> {
        writer.put_i64(*value)
    }
}

impl Format for MarksFormat {
    type Value = Marks;

    ghost grammar = { marks_grammar };

    ghost asked = { λ marks. true };

    #[tactic(auto, unfolding(nm_codec::specs::ReadSteps::coded_at))]
    fn read(_: Global, reader: &mut Reader<'_>) -> Result<Marks, ReadError> {
        let at = reader.at();
        match marks_of(reader.u8()?) {
            Some(marks) => Ok(marks),
            None => Err(ReadError::Bad { at }),
        }
    }

    fn len(_: &Marks) -> u64 {
        1
    }

    fn write(value: &Marks, writer: &mut Writer) -> Result<(), NoMemory> {
        writer.put_u8(marks_code(*value))
    }
}

fn marks_of(code: u8) -> Option<Marks>
    ensures { result ≡ marks_of code }
{
    match code {
        0 => Some(marks(false, false, false)),
        1 => Some(marks(true, false, false)),
        2 => Some(marks(false, true, false)),
        3 => Some(marks(true, true, false)),
        4 => Some(marks(false, false, true)),
        5 => Some(marks(true, false, true)),
        6 => Some(marks(false, true, true)),
        7 => Some(marks(true, true, true)),
        _ => None,
    }
}

fn marks(attachment: bool, signed: bool, encrypted: bool) -> Marks
    ensures { result ≡ record { attachment = attachment; signed = signed; encrypted = encrypted } }
{
    Marks {
        attachment,
        signed,
        encrypted,
    }
}

fn marks_code(marks: Marks) -> u8
    ensures { result ≡ marks_code marks }
{
    u8::from(marks.attachment) + 2 * u8::from(marks.signed) + 4 * u8::from(marks.encrypted)
}

/// The values of facts, one after the other.
type FactsParts = Pair<
    IdFormat,
    Pair<
        ListOf<IdFormat>,
        Pair<
            DateFormat,
            Pair<
                ListOf<MailboxFormat>,
                Pair<
                    ListOf<MailboxFormat>,
                    Pair<
                        TextFormat,
                        Pair<ListOf<FieldWordsFormat>, Pair<ListOf<TextFormat>, MarksFormat>>,
                    >,
                >,
            >,
        >,
    >,
>;

impl Format for FactsFormat {
    type Value = Facts;

    ghost grammar = { facts_grammar };

    ghost asked = { λ facts. is_date facts.date };

    #[tactic(auto, unfolding(nm_codec::specs::ReadSteps::mapped_at))]
    fn read(alloc: Global, reader: &mut Reader<'_>) -> Result<Facts, ReadError> {
        let (id, (links, (date, (from, (to, (subject, (lists, (types, marks)))))))) =
            <FactsParts as Format>::read(alloc, reader)?;
        Ok(Facts {
            id,
            links,
            date,
            from,
            to,
            subject,
            lists,
            types,
            marks,
        })
    }

    fn len(value: &Facts) -> u64 {
        IdFormat::len(&value.id)
            .saturating_add(<ListOf<IdFormat> as Format>::len(&value.links))
            .saturating_add(DateFormat::len(&value.date))
            .saturating_add(heading_len(value))
    }

    fn write(value: &Facts, writer: &mut Writer) -> Result<(), NoMemory> {
        IdFormat::write(&value.id, writer)?;
        <ListOf<IdFormat> as Format>::write(&value.links, writer)?;
        DateFormat::write(&value.date, writer)?;
        write_heading(value, writer)?;
        Ok(())
    }
}

fn heading_len(facts: &Facts) -> u64
    ensures len { result ≡ min (length (heading_grammar.bytes (heading_parts facts.now))) max_count }
    ensures value { heading_grammar.is_value (heading_parts facts.now) ≡ true }
{
    <ListOf<MailboxFormat> as Format>::len(&facts.from)
        .saturating_add(<ListOf<MailboxFormat> as Format>::len(&facts.to))
        .saturating_add(TextFormat::len(&facts.subject))
        .saturating_add(content_len(facts))
}

fn content_len(facts: &Facts) -> u64
    ensures len { result ≡ min (length (content_grammar.bytes (content_parts facts.now))) max_count }
    ensures value { content_grammar.is_value (content_parts facts.now) ≡ true }
{
    <ListOf<FieldWordsFormat> as Format>::len(&facts.lists)
        .saturating_add(<ListOf<TextFormat> as Format>::len(&facts.types))
        .saturating_add(MarksFormat::len(&facts.marks))
}

fn write_heading(facts: &Facts, writer: &mut Writer) -> Result<(), NoMemory>
    requires { length (heading_grammar.bytes (heading_parts facts.now)) < 2 ^ 32 }
    ensures { OnOk result (writer.new ≡ writer.old ++ heading_grammar.bytes (heading_parts facts.now)) }
{
    <ListOf<MailboxFormat> as Format>::write(&facts.from, writer)?;
    <ListOf<MailboxFormat> as Format>::write(&facts.to, writer)?;
    TextFormat::write(&facts.subject, writer)?;
    write_content(facts, writer)?;
    Ok(())
}

fn write_content(facts: &Facts, writer: &mut Writer) -> Result<(), NoMemory>
    requires { length (content_grammar.bytes (content_parts facts.now)) < 2 ^ 32 }
    ensures { OnOk result (writer.new ≡ writer.old ++ content_grammar.bytes (content_parts facts.now)) }
{
    <ListOf<FieldWordsFormat> as Format>::write(&facts.lists, writer)?;
    <ListOf<TextFormat> as Format>::write(&facts.types, writer)?;
    MarksFormat::write(&facts.marks, writer)?;
    Ok(())
}
