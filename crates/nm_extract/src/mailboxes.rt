//! The mailboxes of a mail with their names decoded, for its facts in `mail` and for `word_lists`.

ghost use Rattle.std.specs.Prelude.{◌≡◌, ◌++◌, IfOk, OnOk};
ghost use Rattle.std.specs.List.{flat_map};
ghost use Rattle.nm_extract.specs.Mailboxes.{field_mailboxes, mailbox_words, decoded_mailbox, decoded_mailboxes, to_of};

use nm_base::{Copies, Mailbox, Many, NoMemory, WordList};
use nm_decode::encoded_words;
use nm_header::{HeaderList, mailboxes};
use nm_words::add_words;
use std::alloc::Global;

/// The mailboxes in the fields of a name that count, their names decoded.
pub(crate) fn field_mailboxes(
    alloc: Global,
    header: &HeaderList,
    name: &str,
) -> Result<Many<Mailbox>, NoMemory>
    ensures { IfOk result (λ found. found ≡ field_mailboxes header.now.list name.now) }
{
    let mut found = Many::new(alloc);
    add_field(alloc, header, name, &mut found)?;
    Ok(found)
}

/// Those of To, Cc and Bcc.
pub(crate) fn recipients(alloc: Global, header: &HeaderList) -> Result<Many<Mailbox>, NoMemory>
    ensures { IfOk result (λ found. found ≡ to_of header.now.list) }
{
    let mut found = Many::new(alloc);
    add_field(alloc, header, "to", &mut found)?;
    add_field(alloc, header, "cc", &mut found)?;
    add_field(alloc, header, "bcc", &mut found)?;
    Ok(found)
}

fn add_field(
    alloc: Global,
    header: &HeaderList,
    name: &str,
    found: &mut Many<Mailbox>,
) -> Result<(), NoMemory>
    ensures { OnOk result (found.new ≡ found.old ++ field_mailboxes header.now.list name.now) }
{
    let texts = header.texts(alloc, name)?;
    'texts: for text in texts.as_slice() {
        add_decoded(alloc, text.as_str(), found)?;
    }
    Ok(())
}

fn add_decoded(alloc: Global, text: &str, found: &mut Many<Mailbox>) -> Result<(), NoMemory>
    ensures { OnOk result (found.new ≡ found.old ++ decoded_mailboxes text.now) }
{
    let written = mailboxes(alloc, text)?;
    'mailboxes: for mailbox in written.as_slice() {
        found.push(decoded_mailbox(alloc, mailbox)?)?;
    }
    Ok(())
}

fn decoded_mailbox(alloc: Global, mailbox: &Mailbox) -> Result<Mailbox, NoMemory>
    ensures { IfOk result (λ shown. shown ≡ decoded_mailbox mailbox.now) }
{
    Ok(Mailbox {
        name: encoded_words(alloc, mailbox.name.as_str())?,
        address: mailbox.address.copy()?,
    })
}

/// The words of the names and addresses, in their order.
pub(crate) fn words_of_mailboxes(alloc: Global, mailboxes: &[Mailbox]) -> Result<WordList, NoMemory>
    ensures { IfOk result (λ found. found ≡ flat_map mailbox_words mailboxes.now) }
{
    let mut found = WordList::new(alloc);
    'mailboxes: for mailbox in mailboxes {
        add_mailbox(alloc, mailbox, &mut found)?;
    }
    found.shrink_to_fit();
    Ok(found)
}

fn add_mailbox(alloc: Global, mailbox: &Mailbox, found: &mut WordList) -> Result<(), NoMemory>
    ensures { OnOk result (found.new ≡ found.old ++ mailbox_words mailbox.now) }
{
    add_words(alloc, mailbox.name.as_str(), found)?;
    add_words(alloc, mailbox.address.as_str(), found)?;
    Ok(())
}
