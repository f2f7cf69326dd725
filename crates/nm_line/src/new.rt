//! The command `new`: new mail is added, and what is missing is removed. `lane_zero` calls it.

ghost use Rattle.std.specs.Prelude.{◌≡◌, ℕ, ℤ, [], IfOk};
ghost use Rattle.nm_model_answer.specs.NewText.{new_text};
ghost use Rattle.nm_lanes.specs.declared.script.ScriptLine.{ScriptLine};
ghost use Rattle.nm_line.specs.Desk.{IsReady, KeepsLoans, Stands, StaysDurable, place_of};
ghost use Rattle.nm_line.specs.Line.{Ends, replied_with};
ghost use Rattle.nm_prepare.specs.Prepared.{IsPrepared};
ghost use Rattle.nm_prepare.specs.declared.prepared.Prepared.TheVariants as ready;
ghost use Rattle.nm_log.specs.ParsedLine.{parse_line};
ghost use Rattle.nm_scan.specs.Bodies.{left_after};

use crate::desk::Desk;
use crate::fault_texts::{fault_texts, refuse_write};
use crate::line_answer::{LineAnswer, replied};
use nm_base::{Many, NoMemory};
use nm_disk::Disk;
use nm_log::{Crew, new_text};
use nm_maildir::{Given, Maildir};
use nm_model_answer::{NewReport, Request};
use nm_workers::OpenGate;
use std::alloc::Global;
use std::sync::Wait;
use std::thread::Threads;

/// Takes in what has come, which several workers parse, and removes what is missing.
pub(crate) fn run_new<R: Threads + Wait + Sync, M: Maildir, D: Disk>(
    crew: &Crew<'_, R>,
    desk: &mut Desk<'_, '_, '_, M, D>,
    given: &mut Many<Given>,
) -> Result<LineAnswer, NoMemory>
    requires fresh { given.old ≡ [] }
    requires ready { IsReady desk.old.writer.now (D.observed desk.old.disk.now) }
    ensures ends { (moment : ℤ) (left : ℕ) (line : ScriptLine) → IsPrepared (parse_line line) line.input ready.New
        → Ends moment (place_of M.observed D.observed desk.old left) line given.new result (place_of M.observed D.observed desk.new (left_after left given.new)) }
    ensures stands { Stands desk.new.writer.now (D.observed desk.new.disk.now) }
    ensures durable { StaysDurable D.observed desk.old desk.new }
    ensures loans { KeepsLoans desk.old desk.new }
{
    let texts = fault_texts(crew.alloc)?;
    let workers = crew.setting.workers;
    match desk
        .writer
        .new_mail(crew.rt, desk.mail, desk.disk, workers, &OpenGate, given)
    {
        Ok(report) => reply_new(crew.alloc, &report),
        Err(error) => refuse_write(crew.alloc, error, texts),
    }
}

/// The reply of a `new`.
fn reply_new(alloc: Global, report: &NewReport) -> Result<LineAnswer, NoMemory>
    ensures { IfOk result (λ done. done ≡ replied_with Request.New (new_text report.now)) }
{
    let text = new_text(alloc, report)?;
    replied(Request::New, text)
}
