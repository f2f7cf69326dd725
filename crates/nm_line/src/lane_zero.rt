//! A line of lane 0: what it asks for is done, by a file for each command. `nm_phase` asks for it.

ghost use Rattle.std.specs.Prelude.{◌≡◌, []};
ghost use Rattle.nm_lanes.specs.declared.script.ScriptLine.{ScriptLine};
ghost use Rattle.nm_line.specs.Desk.{IsReady, KeepsLoans, Stands, StaysDurable, place_of};
ghost use Rattle.nm_line.specs.Line.{Ends};
ghost use Rattle.nm_prepare.specs.Prepared.{IsPreparedAs};
ghost use Rattle.nm_log.specs.ParsedLine.{parse_line};
ghost use Rattle.nm_scan.specs.Bodies.{left_after};

use crate::desk::Desk;
use crate::index_replies::read_off;
use crate::line_answer::{LineAnswer, refuse};
use crate::new::run_new;
use crate::restore::run_restore;
use crate::show::run_show;
use crate::tag::run_tag;
use nm_base::{Many, NoMemory};
use nm_disk::Disk;
use nm_log::Crew;
use nm_maildir::{Given, Maildir};
use nm_prepare::{AskError, Prepared};
use std::sync::Wait;
use std::thread::Threads;

/// Does what a line of lane 0 asks for. `left` is how many bytes may still be shown. What the mail folder answers is noted.
pub fn answer<R: Threads + Wait + Sync, M: Maildir, D: Disk>(
    crew: &Crew<'_, R>,
    prepared: Result<Prepared, AskError>,
    left: u64,
    desk: &mut Desk<'_, '_, '_, M, D>,
    given: &mut Many<Given>,
) -> Result<LineAnswer, NoMemory>
    requires fresh { given.old ≡ [] }
    requires ready { IsReady desk.old.writer.now (D.observed desk.old.disk.now) }
    ensures ends { (line : ScriptLine) → IsPreparedAs (parse_line line) line.input prepared
        → Ends crew.now.setting.now.moment (place_of M.observed D.observed desk.old left) line given.new result (place_of M.observed D.observed desk.new (left_after left given.new)) }
    ensures stands { Stands desk.new.writer.now (D.observed desk.new.disk.now) }
    ensures durable { StaysDurable D.observed desk.old desk.new }
    ensures loans { KeepsLoans desk.old desk.new }
{
    let alloc = crew.alloc;
    match prepared {
        Ok(Prepared::New) => run_new(crew, desk, given),
        Ok(Prepared::Read(reading)) => {
            read_off(alloc, crew.setting, desk.writer.snapshot(), reading)
        }
        Ok(Prepared::Show(ask, query)) => run_show(crew, ask, &query, left, desk, given),
        Ok(Prepared::Tag(ask, lines)) => run_tag(crew, ask, lines, desk, given),
        Ok(Prepared::Restore(ask, wanted)) => run_restore(crew, ask, &wanted, desk, given),
        Err(AskError::Refused(outcome)) => refuse(alloc, outcome),
        Err(AskError::NoMemory) => Err(NoMemory),
    }
}
