//! The lists of words of a mail, for its facts: `extract` calls it for the header, `part_facts` for the parts.

ghost use Rattle.std.specs.Prelude.{◌≡◌, ◌++◌, ◌∷◌, [], IfOk};
ghost use Rattle.nm_extract.specs.WordLists.{list_of, mailbox_list, word_lists};
ghost use Rattle.nm_words.specs.Words.{words_of};

use crate::mailboxes::words_of_mailboxes;
use nm_base::{Field, FieldWords, Mailbox, Many, NoMemory};
use nm_words::words;
use std::alloc::Global;

/// The words of the mailboxes and the subject, then those of the attached files and of the bodies.
pub(crate) fn word_lists(
    alloc: Global,
    from: &[Mailbox],
    to: &[Mailbox],
    subject: &str,
    attachments: Many<FieldWords>,
    bodies: Many<FieldWords>,
) -> Result<Many<FieldWords>, NoMemory>
    ensures { IfOk result (λ lists. lists ≡ word_lists from.now to.now subject.now attachments bodies) }
{
    let mut front = Vec::new(alloc);
    front.push(mailbox_list(alloc, Field::From, from)?)?;
    front.push(mailbox_list(alloc, Field::To, to)?)?;
    front.push(text_list(alloc, Field::Subject, subject)?)?;
    front.append(&mut attachments.into_vec())?;
    let lists = put_before(front, bodies.into_vec())?;
    Ok(Many::from_vec(lists))
}

/// These lists before others, of which there may be many: so it is done in the room that those have.
#[tactic(auto, using(crate::proofs::ListLemmas::reversed_join))]
fn put_before(front: Vec<FieldWords>, others: Vec<FieldWords>) -> Result<Vec<FieldWords>, NoMemory>
    ensures { IfOk result (λ all. all.items ≡ front.items ++ others.items) }
{
    let mut front = front;
    let mut all = others;
    front.reverse();
    all.reverse();
    all.append(&mut front)?;
    all.reverse();
    Ok(all)
}

fn mailbox_list(alloc: Global, field: Field, mailboxes: &[Mailbox]) -> Result<FieldWords, NoMemory>
    ensures { IfOk result (λ list. list ≡ mailbox_list field mailboxes.now) }
{
    let words = words_of_mailboxes(alloc, mailboxes)?;
    Ok(FieldWords { field, words })
}

pub(crate) fn text_list(alloc: Global, field: Field, text: &str) -> Result<FieldWords, NoMemory>
    ensures { IfOk result (λ list. list ≡ list_of field (words_of text.now)) }
{
    let words = words(alloc, text)?;
    Ok(FieldWords { field, words })
}
