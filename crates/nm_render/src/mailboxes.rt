//! Mailboxes as `show` prints them, for `message`: `NAME <ADDRESS>`, or the address alone.

ghost use Rattle.std.specs.Prelude.{◌≡◌, ◌++◌, codes, map, IfOk, OnOk};
ghost use Rattle.nm_model_answer.specs.Show.{lead_from, mailbox_text, mailboxes_text};
ghost use Rattle.nm_model_answer.specs.View.{files_of};
ghost use Rattle.nm_render.specs.Joined.{after_first};

use nm_base::{Mailbox, Many, MessageId, NoMemory};
use nm_state::Snapshot;
use std::alloc::Global;

/// Who wrote a message, by its lead file.
pub(crate) fn lead_from<'a>(snapshot: &'a Snapshot, id: &MessageId) -> &'a [Mailbox]
    ensures { result.now ≡ lead_from (files_of snapshot.now id.now) }
{
    let Some(mut files) = snapshot.files(id) else {
        return &[];
    };
    match files.next() {
        Some((_, facts)) => facts.from.as_slice(),
        None => &[],
    }
}

/// The mailboxes with commas between them.
pub(crate) fn mailboxes_text(alloc: Global, mailboxes: &[Mailbox]) -> Result<Many<u8>, NoMemory>
    ensures { IfOk result (λ text. text ≡ mailboxes_text mailboxes.now) }
{
    let mut text = Many::new(alloc);
    let Some((first, more)) = mailboxes.split_first() else {
        return Ok(text);
    };
    push_mailbox(&mut text, first)?;
    push_more(&mut text, more)?;
    Ok(text)
}

/// Adds the mailboxes that follow a first one.
fn push_more(text: &mut Many<u8>, mailboxes: &[Mailbox]) -> Result<(), NoMemory>
    ensures { OnOk result (text.new ≡ text.old ++ after_first (codes ", ") (map mailbox_text mailboxes.now)) }
{
    'mailboxes: for mailbox in mailboxes {
        text.extend_from_slice(b", ")?;
        push_mailbox(text, mailbox)?;
    }
    Ok(())
}

fn push_mailbox(text: &mut Many<u8>, mailbox: &Mailbox) -> Result<(), NoMemory>
    ensures { OnOk result (text.new ≡ text.old ++ mailbox_text mailbox.now) }
{
    if mailbox.name.as_bytes().is_empty() {
        text.extend_from_slice(mailbox.address.as_bytes())?;
        return Ok(());
    }
    text.extend_from_slice(mailbox.name.as_bytes())?;
    text.extend_from_slice(b" <")?;
    text.extend_from_slice(mailbox.address.as_bytes())?;
    text.extend_from_slice(b">")?;
    Ok(())
}
