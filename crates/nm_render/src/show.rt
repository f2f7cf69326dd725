//! What `show` prints, for `nm_line`: which messages it finds, which files it reads for them, and the text over what
//! those reads gave.

ghost use Rattle.std.specs.Prelude.{◌≡◌, ◌++◌, false, length, IfErr, IfOk, None, OnOk, is_ok};
ghost use Rattle.nm_model_answer.specs.Show.{first_lost, gone_path, is_not_one, lead_path, lead_paths, raw_text, show_text, shown_ids};
ghost use Rattle.nm_model_answer.specs.View.{files_of};
ghost use Rattle.nm_dates.specs.Seconds.{IsMoment};
ghost use Rattle.nm_render.specs.Show.{IsGone, IsIdsFault, IsRawFault, IsTextFault};

use crate::message::messages_text;
use crate::order::ordered;
use nm_base::{Copies, MailPath, Many, MessageId, NoMemory, ShowAsk};
use nm_eval::matches;
use nm_maildir::{Given, ReadAnswer};
use nm_query::Query;
use nm_state::Snapshot;
use std::alloc::Global;
use thiserror::Error;

/// Why there is nothing to show.
#[derive(Debug, Drop, Error)]
pub enum ShowError {
    /// Raw form shows one message, and the query finds n.
    #[error("not one message")]
    NotOne { found: u64 },
    /// The file that raw form asks for is not there any more, or it is too long.
    #[error("gone")]
    Gone { path: MailPath },
    #[error("no memory")]
    NoMemory,
}

impl From<NoMemory> for ShowError {
    ghost use Rattle.nm_render.specs.declared.show.ShowError.TheVariants as faults;

    ghost from_gives = { λ _ e. e ≡ faults.NoMemory };

    fn from(_: NoMemory) -> ShowError {
        ShowError::NoMemory
    }
}

/// The messages that a show finds whose query has this tree, the oldest first.
pub fn shown_ids(
    alloc: Global,
    snapshot: &Snapshot,
    ask: &ShowAsk,
    query: &Query,
    moment: i64,
) -> Result<Many<MessageId>, ShowError>
    requires moment { IsMoment moment }
    ensures ok { IfOk result (λ ids. ids ≡ shown_ids ask.now snapshot.now moment query.now) }

    // There is one path to read for each.
    ensures lead { IfOk result (λ ids. length (lead_paths snapshot.now ids) ≡ length ids) }

    // NotOne is reported exactly where raw form is asked of more or fewer than one.
    ensures one { OnOk result (is_not_one ask.now (shown_ids ask.now snapshot.now moment query.now) ≡ false) }
    ensures err { IfErr result (IsIdsFault ask.now (shown_ids ask.now snapshot.now moment query.now)) }
{
    let ids = found_oldest_first(alloc, snapshot, ask, query, moment)?;
    if is_not_one(ask, ids.as_slice()) {
        return Err(ShowError::NotOne {
            found: ids.len() as u64,
        });
    }
    Ok(ids)
}

fn found_oldest_first(
    alloc: Global,
    snapshot: &Snapshot,
    ask: &ShowAsk,
    query: &Query,
    moment: i64,
) -> Result<Many<MessageId>, NoMemory>
    requires moment { IsMoment moment }
    ensures { IfOk result (λ ids. ids ≡ shown_ids ask.now snapshot.now moment query.now) }
{
    let ids = matches(alloc, snapshot, query, moment, ask.exclude)?;
    ordered(alloc, snapshot, true, ids, 0)
}

fn is_not_one(ask: &ShowAsk, ids: &[MessageId]) -> bool
    ensures { result ≡ is_not_one ask.now ids.now }
{
    ask.raw && ids.len() != 1
}

/// The paths that are read for these messages: those of their lead files.
pub fn lead_paths(
    alloc: Global,
    snapshot: &Snapshot,
    ids: &[MessageId],
) -> Result<Many<MailPath>, NoMemory>
    ensures { IfOk result (λ paths. paths ≡ lead_paths snapshot.now ids.now) }
{
    let mut paths = Many::new(alloc);
    'ids: for id in ids {
        push_lead(&mut paths, snapshot, id)?;
    }
    Ok(paths)
}

fn push_lead(
    paths: &mut Many<MailPath>,
    snapshot: &Snapshot,
    id: &MessageId,
) -> Result<(), NoMemory>
    ensures { OnOk result (paths.new ≡ paths.old ++ lead_path (files_of snapshot.now id.now)) }
{
    let Some(mut files) = snapshot.files(id) else {
        return Ok(());
    };
    if let Some((path, _)) = files.next() {
        paths.push(path.copy()?)?;
    }
    Ok(())
}

/// The text of messages, each with what the read of its lead file gave. In raw form it is the bytes of the one file, and Gone
/// is reported exactly where the read found none.
pub fn show_text(
    alloc: Global,
    snapshot: &Snapshot,
    ask: &ShowAsk,
    ids: &[MessageId],
    given: &[Given],
) -> Result<Many<u8>, ShowError>
    ensures ok { IfOk result (λ text. text ≡ show_text ask.now snapshot.now ids.now given.now) }
    ensures there { OnOk result (gone_path ask.now given.now ≡ None) }
    ensures err { IfErr result (IsTextFault ask.now given.now) }
{
    if ask.raw {
        return raw_text(alloc, given);
    }
    let text = messages_text(alloc, snapshot, ids, given)?;
    Ok(text)
}

/// The bytes that the first read found.
fn raw_text(alloc: Global, given: &[Given]) -> Result<Many<u8>, ShowError>
    ensures ok { IfOk result (λ text. text ≡ raw_text given.now) }
    ensures there { OnOk result (first_lost given.now ≡ None) }
    ensures err { IfErr result (IsRawFault given.now) }
{
    let Some(Given::Read { path, answer }) = given.first() else {
        return Ok(Many::new(alloc));
    };
    match answer {
        ReadAnswer::Body(bytes) => {
            let text = Many::from_slice(alloc, bytes.as_slice())?;
            Ok(text)
        }
        ReadAnswer::Missing => gone(path),
        ReadAnswer::TooLong => gone(path),
        ReadAnswer::Mail => Ok(Many::new(alloc)),
        ReadAnswer::NotMail => Ok(Many::new(alloc)),
    }
}

/// The answer that the file is missing, where there is memory for its path.
fn gone(path: &MailPath) -> Result<Many<u8>, ShowError>
    ensures err { IfErr result (IsGone path.now) }
    ensures none { is_ok result ≡ false }
{
    let path = path.copy()?;
    Err(ShowError::Gone { path })
}
