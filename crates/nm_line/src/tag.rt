//! The command `tag`: the tags that its words, or the lines of its input, want are set. `lane_zero` calls it.

ghost use Rattle.std.specs.Prelude.{◌≡◌, ℕ, []};
ghost use Rattle.nm_lanes.specs.declared.script.ScriptLine.{ScriptLine};
ghost use Rattle.nm_line.specs.Desk.{IsReady, KeepsLoans, Stands, StaysDurable, place_of};
ghost use Rattle.nm_line.specs.Line.{Ends};
ghost use Rattle.nm_prepare.specs.Prepared.{IsPrepared};
ghost use Rattle.nm_prepare.specs.declared.prepared.Prepared.TheVariants as ready;
ghost use Rattle.nm_log.specs.ParsedLine.{parse_line};
ghost use Rattle.nm_scan.specs.Bodies.{left_after};

use crate::change::{Changes, change_tags};
use crate::desk::Desk;
use crate::line_answer::LineAnswer;
use nm_base::{Many, NoMemory, TagAsk};
use nm_disk::Disk;
use nm_log::Crew;
use nm_maildir::{Given, Maildir};
use nm_model_answer::{Request, TagChange};
use std::sync::Wait;
use std::thread::Threads;

/// Sets the tags that the lines of a `tag` want.
pub(crate) fn run_tag<R: Threads + Wait + Sync, M: Maildir, D: Disk>(
    crew: &Crew<'_, R>,
    ask: TagAsk,
    lines: Many<TagChange>,
    desk: &mut Desk<'_, '_, '_, M, D>,
    given: &mut Many<Given>,
) -> Result<LineAnswer, NoMemory>
    requires fresh { given.old ≡ [] }
    requires ready { IsReady desk.old.writer.now (D.observed desk.old.disk.now) }
    ensures ends { (left : ℕ) (line : ScriptLine) → IsPrepared (parse_line line) line.input (ready.Tag ask lines)
        → Ends crew.now.setting.now.moment (place_of M.observed D.observed desk.old left) line given.new result (place_of M.observed D.observed desk.new (left_after left given.new)) }
    ensures stands { Stands desk.new.writer.now (D.observed desk.new.disk.now) }
    ensures durable { StaysDurable D.observed desk.old desk.new }
    ensures loans { KeepsLoans desk.old desk.new }
{
    let changes = Changes {
        request: Request::Tag(ask),
        lines,
        strangers: Many::new(crew.alloc),
    };
    change_tags(crew, changes, desk, given)
}
