//! The facts of a mail: `nm_scan` calls `extract` for each file that `new` reads, and `nm_render` asks for the bodies to show.

ghost use Rattle.std.specs.Prelude.{◌≡◌, Some, IfErr, IfOk};
ghost use Rattle.nm_base.specs.Limits.{IsDate};
ghost use Rattle.nm_extract.specs.Mail.{IsExtractFault, facts_with, facts_of, is_mail, subject_of};
ghost use Rattle.nm_extract.specs.PartText.{bodies_of};

use crate::body_text::part_texts;
use crate::dates::date;
use crate::ids::{links, own_id};
use crate::mailboxes::{field_mailboxes, recipients};
use crate::part_facts::{PartFacts, part_facts};
use crate::word_lists::word_lists;
use nm_base::{Facts, Many, NoMemory, Text};
use nm_decode::encoded_words;
use nm_header::{HeaderList, fields};
use nm_mime::parts;
use std::alloc::Global;
use thiserror::Error;

/// Why a file has no facts.
#[derive(Clone, Copy, Debug, Error)]
pub enum ExtractError {
    /// It says neither who wrote it, nor who gets it, nor what it is about.
    #[error("not mail")]
    NotMail,
    #[error("no memory")]
    NoMemory,
}

impl From<NoMemory> for ExtractError {
    ghost use Rattle.nm_extract.specs.declared.mail.ExtractError.TheVariants as faults;

    ghost from_gives = { λ _ e. e ≡ faults.NoMemory };

    fn from(_: NoMemory) -> ExtractError {
        ExtractError::NoMemory
    }
}

/// The facts of a mail (RFC 5322, RFC 2045 to 2047), read from all its bytes. Bytes are a mail exactly where their
/// header has a From, a To or a Subject; whatever else is damaged is passed over.
pub fn extract(alloc: Global, bytes: &[u8]) -> Result<Facts, ExtractError>
    ensures ok { IfOk result (λ facts. facts_of bytes.now ≡ Some facts) }
    ensures not_mail { IfErr result (IsExtractFault bytes.now) }
    ensures date { IfOk result (λ facts. IsDate facts.date) }
{
    let header = fields(alloc, bytes)?;
    if !is_mail(&header) {
        return Err(ExtractError::NotMail);
    }
    let parts = part_facts(alloc, bytes, &header)?;
    let facts = facts_with(alloc, bytes, &header, parts)?;
    Ok(facts)
}

/// The text of each readable part, in the order of the parts, as a reader of the mail is shown it.
pub fn bodies(alloc: Global, bytes: &[u8]) -> Result<Many<Text>, NoMemory>
    ensures { IfOk result (λ texts. texts ≡ bodies_of bytes.now) }
{
    let parts = parts(alloc, bytes)?;
    part_texts(alloc, bytes, parts.as_slice())
}

fn is_mail(header: &HeaderList) -> bool
    ensures { result ≡ is_mail header.now.list }
{
    if header.has("from") {
        return true;
    }
    if header.has("to") {
        return true;
    }
    header.has("subject")
}

fn facts_with(
    alloc: Global,
    bytes: &[u8],
    header: &HeaderList,
    parts: PartFacts,
) -> Result<Facts, NoMemory>
    ensures value { IfOk result (λ facts. facts ≡ facts_with bytes.now header.now.list parts) }
    ensures date { IfOk result (λ facts. IsDate facts.date) }
{
    let id = own_id(alloc, bytes, header)?;
    let links = links(alloc, &id, header)?;
    let date = date(alloc, header)?;
    let from = field_mailboxes(alloc, header, "from")?;
    let to = recipients(alloc, header)?;
    let subject = subject(alloc, header)?;
    let lists = word_lists(
        alloc,
        from.as_slice(),
        to.as_slice(),
        subject.as_str(),
        parts.attachments,
        parts.bodies,
    )?;
    Ok(Facts {
        id,
        links,
        date,
        from,
        to,
        subject,
        lists,
        types: parts.types,
        marks: parts.marks,
    })
}

fn subject(alloc: Global, header: &HeaderList) -> Result<Text, NoMemory>
    ensures { IfOk result (λ subject. subject ≡ subject_of header.now.list) }
{
    let text = header.first_text(alloc, "subject")?;
    encoded_words(alloc, text.as_str())
}
