//! The parts of a mail one by one: `nm_extract` needs no list of them, and `tree` makes one.

ghost use Rattle.std.specs.Prelude.{◌≡◌, ◌∷◌, ◌++◌, [], IfOk, IfSome, MatchOption, OnOk, length, reverse};
ghost use Rattle.nm_header.specs.Fields.{header_of};
ghost use Rattle.nm_mime.specs.PartReader.{StandInside, mail_of, parts_to_come};
ghost use Rattle.nm_mime.specs.Parts.{IsInside, IsWithin, opening_of, parts_of, whole_of};
ghost use Rattle.nm_mime.specs.OpenParts.{pending_in};

use crate::entity::{Entity, Opening, Part};
use crate::open_parts::{Pending, next_entity, push_pending};
use crate::part_header::{read_fields, read_opening};
use nm_base::{Many, NoMemory};
use nm_header::HeaderList;
use std::alloc::Global;

/// Reads the parts of a mail one by one, each before those in it. Its memory follows how deep the parts are, not how
/// many there are. Once it ran out of memory it tells nothing.
#[derive(Drop)]
pub struct PartReader<'a> {
    mail: &'a [u8],
    /// The last one is read next.
    rest: Many<Pending>,
}

impl<'a> PartReader<'a> {
    /// The mail itself as a part, by its header, and the reader of the parts in it.
    pub fn open(
        alloc: Global,
        mail: &'a [u8],
        header: &HeaderList,
    ) -> Result<(Part, PartReader<'a>), NoMemory>
        requires { header.now ≡ header_of mail.now }
        ensures parts { IfOk result (λ opened. parts_of mail.now ≡ opened.0 ∷ parts_to_come opened.1) }
        ensures inside { IfOk result (λ opened. IsInside (length mail.now) opened.0) }
        ensures mail { IfOk result (λ opened. mail_of opened.1 ≡ mail.now) }
        ensures stand { IfOk result (λ opened. StandInside opened.1) }
    {
        let mut rest = Many::new(alloc);
        let part = open_whole(alloc, mail, header, &mut rest)?;
        Ok((part, PartReader { mail, rest }))
    }

    /// The next part, or none at the end.
    pub fn next(&mut self, alloc: Global) -> Result<Option<Part>, NoMemory>
        requires { StandInside self.old }
        ensures next { IfOk result (λ next. MatchOption next (parts_to_come self.old ≡ []) (λ part. parts_to_come self.old ≡ part ∷ parts_to_come self.new)) }
        ensures inside { IfOk result (λ next. IfSome next (IsInside (length (mail_of self.old)))) }
        ensures mail { mail_of self.new ≡ mail_of self.old }
        ensures stand { OnOk result (StandInside self.new) }
    {
        let Some(entity) = next_entity(self.mail, &mut self.rest)? else {
            return Ok(None);
        };
        let part = open_part(alloc, self.mail, entity, &mut self.rest)?;
        Ok(Some(part))
    }
}

/// The mail itself as a part; what is to be read in it goes on top.
fn open_whole(
    alloc: Global,
    mail: &[u8],
    header: &HeaderList,
    rest: &mut Many<Pending>,
) -> Result<Part, NoMemory>
    requires { header.now ≡ header_of mail.now }
    ensures part { IfOk result (λ part. part ≡ (opening_of mail.now (whole_of mail.now)).part) }
    ensures rest { OnOk result (reverse rest.new ≡ pending_in (opening_of mail.now (whole_of mail.now)) ++ reverse rest.old) }
{
    let opening = read_whole(alloc, mail, header)?;
    push_pending(alloc, &opening, rest)?;
    let Opening { part, boundary: _ } = opening;
    Ok(part)
}

fn read_whole(alloc: Global, mail: &[u8], header: &HeaderList) -> Result<Opening, NoMemory>
    requires { header.now ≡ header_of mail.now }
    ensures { IfOk result (λ opening. opening ≡ opening_of mail.now (whole_of mail.now)) }
{
    let opening = read_fields(alloc, whole(mail), header)?;
    Ok(opening)
}

fn whole(bytes: &[u8]) -> Entity
    ensures { result ≡ whole_of bytes.now }
{
    Entity {
        depth: 0,
        from: 0,
        to: bytes.len(),
        digest: false,
        signature: false,
    }
}

/// The part of an entity; what is to be read in it goes on top.
fn open_part(
    alloc: Global,
    mail: &[u8],
    entity: Entity,
    rest: &mut Many<Pending>,
) -> Result<Part, NoMemory>
    requires { IsWithin (length mail.now) entity }
    ensures part { IfOk result (λ part. part ≡ (opening_of mail.now entity).part) }
    ensures rest { OnOk result (reverse rest.new ≡ pending_in (opening_of mail.now entity) ++ reverse rest.old) }
{
    let opening = read_opening(alloc, mail, entity)?;
    push_pending(alloc, &opening, rest)?;
    let Opening { part, boundary: _ } = opening;
    Ok(part)
}
