//! What sets tags, for `tag` and `restore`: the commits are made, and the files renamed.

ghost use Rattle.std.specs.Prelude.{◌≡◌, ◌++◌, ℕ, [], IfOk};
ghost use Rattle.nm_model_answer.specs.RenameOutcomes.{sync_text};
ghost use Rattle.nm_model_answer.specs.Restore.{strangers_text};
ghost use Rattle.nm_lanes.specs.declared.script.ScriptLine.{ScriptLine};
ghost use Rattle.nm_line.specs.BeforeChange.{AreAsked};
ghost use Rattle.nm_line.specs.Desk.{IsReady, KeepsLoans, Stands, StaysDurable, place_of};
ghost use Rattle.nm_line.specs.Line.{Ends, replied_with};
ghost use Rattle.nm_log.specs.ParsedLine.{parse_line};
ghost use Rattle.nm_log.specs.declared.line_parser.ParsedLine.TheVariants as asked;
ghost use Rattle.nm_scan.specs.Bodies.{left_after};

use crate::desk::Desk;
use crate::fault_texts::{fault_texts, refuse_write};
use crate::line_answer::{LineAnswer, replied};
use nm_base::{Many, MessageId, NoMemory};
use nm_disk::Disk;
use nm_log::{Crew, change_reply};
use nm_maildir::{Given, Maildir};
use nm_model_answer::{Request, SyncReport, TagChange};
use nm_model_plan::tag_commits_fit;
use std::alloc::Global;
use std::sync::Wait;
use std::thread::Threads;

/// The changes of tags that a request asks for, and the ids that it names and no message has.
#[derive(Drop)]
pub(crate) struct Changes {
    pub(crate) request: Request,
    pub(crate) lines: Many<TagChange>,
    pub(crate) strangers: Many<MessageId>,
}

/// Sets the tags that a request wants.
pub(crate) fn change_tags<R: Threads + Wait + Sync, M: Maildir, D: Disk>(
    crew: &Crew<'_, R>,
    changes: Changes,
    desk: &mut Desk<'_, '_, '_, M, D>,
    given: &mut Many<Given>,
) -> Result<LineAnswer, NoMemory>
    requires fresh { given.old ≡ [] }
    requires ready { IsReady desk.old.writer.now (D.observed desk.old.disk.now) }
    ensures ends { (left : ℕ) (line : ScriptLine) → parse_line line ≡ asked.Request changes.request → AreAsked changes line.input desk.old.writer.now.shown
        → Ends crew.now.setting.now.moment (place_of M.observed D.observed desk.old left) line given.new result (place_of M.observed D.observed desk.new (left_after left given.new)) }
    ensures stands { Stands desk.new.writer.now (D.observed desk.new.disk.now) }
    ensures durable { StaysDurable D.observed desk.old desk.new }
    ensures loans { KeepsLoans desk.old desk.new }
{
    tag_commits_fit();
    desk.writer.shows_an_ordered_index();
    let texts = fault_texts(crew.alloc)?;
    let moment = crew.setting.moment;
    match desk.writer.tag(crew.rt, desk.mail, desk.disk, &changes.lines, moment, given) {
        Ok(report) => reply_change(crew.alloc, changes, &report),
        Err(error) => refuse_write(crew.alloc, error, texts),
    }
}

/// The reply of what set tags.
fn reply_change(
    alloc: Global,
    changes: Changes,
    report: &SyncReport,
) -> Result<LineAnswer, NoMemory>
    ensures { IfOk result (λ done. done ≡ replied_with changes.request (strangers_text changes.strangers ++ sync_text report.now)) }
{
    let text = change_reply(alloc, &changes.strangers, report)?;
    replied(changes.request, text)
}
