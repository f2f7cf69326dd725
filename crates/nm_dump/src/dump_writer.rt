//! The call `dump`, for `reply`: the text that `read_dump` reads.

ghost use Rattle.std.specs.Prelude.{◌≡◌, ◌++◌, [], ◌∷◌, IfOk, OnOk, Ok};
ghost use Rattle.nm_base.specs.Order.{sorted};
ghost use Rattle.nm_model_answer.specs.View.{tags_of};
ghost use Rattle.nm_model_answer.specs.Dump.{dump, dump_text, first_line, message_line, tagged};
ghost use Rattle.nm_dump.specs.ReadBack.{wanted_from, AreFitForSup, AreMessages, IsMessage};
ghost use Rattle.nm_model_answer.specs.DumpLines.{read_dump};

use crate::laws::{a_written_dump_is_read_back, a_written_sup_dump_is_read_back};
use crate::line_writer::{push_changes, push_sup};
use nm_base::{Copies, DumpForm, Many, MessageId, NoMemory, ReadForm, Tags, TextSet};
use nm_state::Snapshot;
use std::alloc::Global;

/// The dump of messages: a line for each in the form that is asked, in byte order of the ids, with its tags in byte order. An
/// id occurs once; one that has no file has no tags. It costs n log n for n ids, and the memory of the text and of the ids in
/// order.
pub fn dump(
    alloc: Global,
    snapshot: &Snapshot,
    ids: &Many<MessageId>,
    form: DumpForm,
) -> Result<Many<u8>, NoMemory>
    ensures text { IfOk result (λ text. text ≡ dump form snapshot.now ids.now) }

    // All ids and tags are those of a program, as the laws on a restore ask for.
    ensures messages { OnOk result (AreMessages (tagged snapshot.now (sorted ids.now))) }

    // Read again it sets the tags of each message, once and in order.
    ensures changes { form ≡ DumpForm.BatchTag → IfOk result (λ text. read_dump text ReadForm.BatchTag ≡ Ok (wanted_from 2 (tagged snapshot.now (sorted ids.now)))) }
    ensures told { form ≡ DumpForm.BatchTag → IfOk result (λ text. read_dump text ReadForm.Auto ≡ Ok (wanted_from 2 (tagged snapshot.now (sorted ids.now)))) }
    ensures sup { form ≡ DumpForm.Sup → AreFitForSup (tagged snapshot.now (sorted ids.now))
        → IfOk result (λ text. read_dump text ReadForm.Sup ≡ Ok (wanted_from 1 (tagged snapshot.now (sorted ids.now)))) }
{
    a_written_dump_is_read_back();
    a_written_sup_dump_is_read_back();
    let ids = in_order(alloc, ids.as_slice())?;
    let text = dump_text(alloc, snapshot, &ids, form)?;
    Ok(text)
}

fn in_order(alloc: Global, ids: &[MessageId]) -> Result<TextSet<MessageId>, NoMemory>
    ensures { IfOk result (λ set. set ≡ sorted ids.now) }
{
    let mut set = TextSet::new(alloc);
    'ids: for id in ids {
        set.insert(id.copy()?)?;
    }
    Ok(set)
}

fn dump_text(
    alloc: Global,
    snapshot: &Snapshot,
    ids: &TextSet<MessageId>,
    form: DumpForm,
) -> Result<Many<u8>, NoMemory>
    ensures text { IfOk result (λ text. text ≡ dump_text form (tagged snapshot.now ids.now)) }
    ensures messages { OnOk result (AreMessages (tagged snapshot.now ids.now)) }
{
    let mut text = first_line(alloc, form)?;
    let mut rest = ids.iter();
    'ids: while let Some(id) = rest.next() {
        push_message(alloc, &mut text, snapshot, id, form)?;
    }
    Ok(text)
}

fn first_line(alloc: Global, form: DumpForm) -> Result<Many<u8>, NoMemory>
    ensures { IfOk result (λ text. text ≡ first_line form) }
{
    match form {
        DumpForm::BatchTag => Many::from_slice(alloc, b"#notmuch-dump batch-tag:3 tags\n"),
        DumpForm::Sup => Ok(Many::new(alloc)),
    }
}

fn push_message(
    alloc: Global,
    text: &mut Many<u8>,
    snapshot: &Snapshot,
    id: &MessageId,
    form: DumpForm,
) -> Result<(), NoMemory>
    ensures line { OnOk result (text.new ≡ text.old ++ (message_line form id.now (tags_of snapshot.now id.now) ++ 10 ∷ [])) }
    ensures message { OnOk result (IsMessage id.now (tags_of snapshot.now id.now)) }
{
    match snapshot.tags(id) {
        Some(tags) => push_line(alloc, text, id, tags, form),
        None => push_line(alloc, text, id, &Tags::new(alloc), form),
    }
}

fn push_line(
    alloc: Global,
    text: &mut Many<u8>,
    id: &MessageId,
    tags: &Tags,
    form: DumpForm,
) -> Result<(), NoMemory>
    ensures line { OnOk result (text.new ≡ text.old ++ (message_line form id.now tags.now ++ 10 ∷ [])) }
    ensures message { OnOk result (IsMessage id.now tags.now) }
{
    match form {
        DumpForm::BatchTag => push_changes(alloc, text, id, tags)?,
        DumpForm::Sup => push_sup(text, id, tags)?,
    }
    text.push(b'\n')
}
