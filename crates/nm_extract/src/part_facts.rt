//! What the parts of a mail say, taken one by one, for `extract`.

ghost use Rattle.std.specs.Prelude.{◌≡◌, ◌++◌, [], IfOk, OnOk, false, length};
ghost use Rattle.nm_extract.specs.PartFacts.{facts_of_parts};
ghost use Rattle.nm_extract.specs.PartSteps.{no_part_facts, with_marks, with_part};
ghost use Rattle.nm_extract.specs.WordLists.{attachment_list, body_list};
ghost use Rattle.nm_header.specs.Fields.{header_of};
ghost use Rattle.nm_mime.specs.Parts.{IsInside, parts_of};

use crate::body_text::{is_readable, part_text, visible_text};
use crate::word_lists::text_list;
use nm_base::{Field, FieldWords, Many, Marks, NoMemory, Text};
use nm_header::HeaderList;
use nm_mime::{Part, PartReader};
use std::alloc::Global;

/// What the parts of a mail say: their types, the words of the names of attached files and of the bodies, the marks.
#[derive(Drop)]
pub struct PartFacts {
    pub types: Many<Text>,
    pub attachments: Many<FieldWords>,
    pub bodies: Many<FieldWords>,
    pub marks: Marks,
}

/// Takes the parts one by one, so that no list of them is made.
pub(crate) fn part_facts(
    alloc: Global,
    mail: &[u8],
    header: &HeaderList,
) -> Result<PartFacts, NoMemory>
    requires { header.now ≡ header_of mail.now }
    ensures { IfOk result (λ facts. facts ≡ facts_of_parts mail.now (parts_of mail.now)) }
{
    let mut facts = no_part_facts(alloc);
    let opened = PartReader::open(alloc, mail, header)?;
    let (whole, mut reader) = opened;
    add_part(alloc, mail, whole, &mut facts)?;
    'parts: while let Some(part) = reader.next(alloc)? {
        add_part(alloc, mail, part, &mut facts)?;
    }
    Ok(facts)
}

fn no_part_facts(alloc: Global) -> PartFacts
    ensures { result ≡ no_part_facts }
{
    PartFacts {
        types: Many::new(alloc),
        attachments: Many::new(alloc),
        bodies: Many::new(alloc),
        marks: Marks {
            attachment: false,
            signed: false,
            encrypted: false,
        },
    }
}

fn add_part(alloc: Global, mail: &[u8], part: Part, facts: &mut PartFacts) -> Result<(), NoMemory>
    requires { IsInside (length mail.now) part }
    ensures { OnOk result (facts.new ≡ with_part mail.now facts.old part) }
{
    add_attachment(alloc, &part, &mut facts.attachments)?;
    add_body(alloc, mail, &part, &mut facts.bodies)?;
    facts.marks = with_marks(facts.marks, &part);
    facts.types.push(part.kind)?;
    Ok(())
}

fn add_attachment(alloc: Global, part: &Part, lists: &mut Many<FieldWords>) -> Result<(), NoMemory>
    ensures { OnOk result (lists.new ≡ lists.old ++ attachment_list part.now) }
{
    if !part.attached {
        return Ok(());
    }
    if let Some(name) = &part.filename {
        lists.push(text_list(alloc, Field::Attachment, name.as_str())?)?;
    }
    Ok(())
}

fn add_body(
    alloc: Global,
    mail: &[u8],
    part: &Part,
    lists: &mut Many<FieldWords>,
) -> Result<(), NoMemory>
    requires { IsInside (length mail.now) part.now }
    ensures { OnOk result (lists.new ≡ lists.old ++ body_list mail.now part.now) }
{
    if !is_readable(part.role) {
        return Ok(());
    }
    let text = part_text(alloc, mail, part)?;
    let read = visible_text(alloc, part.kind.as_str(), text)?;
    lists.push(text_list(alloc, Field::Body, read.as_str())?)?;
    Ok(())
}

fn with_marks(marks: Marks, part: &Part) -> Marks
    ensures { result ≡ with_marks marks part.now }
{
    Marks {
        attachment: marks.attachment || part.attached,
        signed: marks.signed || part.kind.as_str() == "multipart/signed",
        encrypted: marks.encrypted || part.kind.as_str() == "multipart/encrypted",
    }
}
