//! What is still to be read in the parts that are opened; `PartReader` takes one entity after the other from it.

ghost use Rattle.std.specs.Prelude.{◌≡◌, ◌∷◌, ◌++◌, ◌≤◌, [], IfOk, IfSome, MatchOption, OnOk, length, reverse};
ghost use Rattle.nm_mime.specs.Parts.{IsWithin, entity_in, is_opened, is_signature};
ghost use Rattle.nm_mime.specs.OpenParts.{AllInside, IsOpenInside, IsPendingInside, entities_in, entities_to_come, open_entities, pending_in, pending_of};

use crate::children::{Delimiters, Span, line_delimiters, next_span};
use crate::entity::{Entity, Opening, Part};
use crate::roles::{Role, is_multipart};
use nm_base::{Many, NoMemory};
use std::alloc::Global;

/// What is still to be read in a part that is opened.
#[derive(Drop)]
pub enum Pending {
    /// The mail that its content is.
    Mail(Entity),
    /// The parts of a multipart from a place on.
    Multipart(OpenMultipart),
}

/// A multipart whose parts are read one by one, so that no place is kept for each.
#[derive(Drop)]
pub struct OpenMultipart {
    pub part: Part,
    pub delimiters: Delimiters,
    /// How many of its parts were read.
    pub before: usize,
    /// From here on parts are still to be read.
    pub at: usize,
}

/// Puts what is to be read in a part on top, if the part is opened.
pub(crate) fn push_pending(
    alloc: Global,
    opening: &Opening,
    rest: &mut Many<Pending>,
) -> Result<(), NoMemory>
    requires { opening.now.part.depth ≤ 32 }
    ensures { OnOk result (reverse rest.new ≡ pending_in opening.now ++ reverse rest.old) }
{
    if !is_opened(opening.part.role) {
        return Ok(());
    }
    rest.push(pending_of(alloc, opening)?)
}

fn pending_of(alloc: Global, opening: &Opening) -> Result<Pending, NoMemory>
    requires { opening.now.part.depth ≤ 32 }
    ensures { IfOk result (λ pending. pending ≡ pending_of opening.now) }
{
    if !is_multipart(opening.part.kind.as_str()) {
        return Ok(Pending::Mail(entity_in(&opening.part, 0, content_span(&opening.part))));
    }
    Ok(Pending::Multipart(OpenMultipart {
        part: opening.part.clone()?,
        delimiters: line_delimiters(alloc, opening.boundary.as_bytes())?,
        before: 0,
        at: opening.part.from,
    }))
}

/// The next entity of those that are still to be read.
pub(crate) fn next_entity(mail: &[u8], rest: &mut Many<Pending>) -> Result<Option<Entity>, NoMemory>
    requires { AllInside (length mail.now) (reverse rest.old) }
    ensures next { IfOk result (λ next. MatchOption next (entities_to_come mail.now (reverse rest.old) ≡ []) (λ entity. entities_to_come mail.now (reverse rest.old) ≡ entity ∷ entities_to_come mail.now (reverse rest.new))) }
    ensures within { IfOk result (λ next. IfSome next (IsWithin (length mail.now))) }
    ensures stand { OnOk result (AllInside (length mail.now) (reverse rest.new)) }
{
    'rest: while let Some(pending) = rest.pop() {
        if let Some(entity) = first_entity(mail, pending, rest)? {
            return Ok(Some(entity));
        }
    }
    Ok(None)
}

/// The first entity of `pending`; what is still to be read there goes on top.
fn first_entity(
    mail: &[u8],
    pending: Pending,
    rest: &mut Many<Pending>,
) -> Result<Option<Entity>, NoMemory>
    requires { IsPendingInside (length mail.now) pending }
    ensures first { IfOk result (λ first. MatchOption first ((entities_in mail.now pending ≡ []) × (rest.new ≡ rest.old)) (λ entity. entities_in mail.now pending ++ entities_to_come mail.now (reverse rest.old) ≡ entity ∷ entities_to_come mail.now (reverse rest.new))) }
    ensures within { IfOk result (λ first. IfSome first (IsWithin (length mail.now))) }
    ensures stand { AllInside (length mail.now) (reverse rest.old) → OnOk result (AllInside (length mail.now) (reverse rest.new)) }
{
    match pending {
        Pending::Mail(entity) => Ok(Some(entity)),
        Pending::Multipart(multipart) => first_in(mail, multipart, rest),
    }
}

fn first_in(
    mail: &[u8],
    multipart: OpenMultipart,
    rest: &mut Many<Pending>,
) -> Result<Option<Entity>, NoMemory>
    requires { IsOpenInside (length mail.now) multipart }
    ensures first { IfOk result (λ first. MatchOption first ((open_entities mail.now multipart ≡ []) × (rest.new ≡ rest.old)) (λ entity. open_entities mail.now multipart ++ entities_to_come mail.now (reverse rest.old) ≡ entity ∷ entities_to_come mail.now (reverse rest.new))) }
    ensures within { IfOk result (λ first. IfSome first (IsWithin (length mail.now))) }
    ensures stand { AllInside (length mail.now) (reverse rest.old) → OnOk result (AllInside (length mail.now) (reverse rest.new)) }
{
    let mut multipart = multipart;
    let Some(entity) = next_in(mail, &mut multipart) else {
        return Ok(None);
    };
    rest.push(Pending::Multipart(multipart))?;
    Ok(Some(entity))
}

/// The next entity in a multipart.
fn next_in(mail: &[u8], multipart: &mut OpenMultipart) -> Option<Entity>
    requires { IsOpenInside (length mail.now) multipart.old }
    ensures next { MatchOption result (open_entities mail.now multipart.old ≡ []) (λ entity. open_entities mail.now multipart.old ≡ entity ∷ open_entities mail.now multipart.new) }
    ensures within { IfSome result (IsWithin (length mail.now)) }
    ensures stand { IsOpenInside (length mail.now) multipart.new }
{
    let bytes = &mail[multipart.at..multipart.part.to];
    let found = next_span(&multipart.delimiters, bytes, multipart.part.to)?;
    let entity = entity_in(&multipart.part, multipart.before, found.span);
    multipart.before += 1;
    multipart.at += found.next;
    Some(entity)
}

fn content_span(part: &Part) -> Span
    ensures { result ≡ record { from = part.now.from; to = part.now.to } }
{
    Span {
        from: part.from,
        to: part.to,
    }
}

/// The entity of a span in a part; n come before it.
fn entity_in(part: &Part, before: usize, span: Span) -> Entity
    requires { part.now.depth ≤ 32 }
    ensures { result ≡ entity_in part.now before span }
{
    Entity {
        depth: part.depth + 1,
        from: span.from,
        to: span.to,
        digest: part.kind.as_str() == "multipart/digest",
        signature: is_signature(part, before),
    }
}

fn is_signature(part: &Part, before: usize) -> bool
    ensures { result ≡ is_signature part.now before }
{
    if before != 1 {
        return false;
    }
    part.kind.as_str() == "multipart/signed"
}

fn is_opened(role: Role) -> bool
    ensures { result ≡ is_opened role }
{
    matches!(role, Role::Opened)
}
