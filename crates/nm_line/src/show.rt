//! The command `show`: the files of the messages that a query finds are read, and what they hold is the reply. `lane_zero` calls it.

ghost use Rattle.std.specs.Prelude.{◌≡◌, ◌≢◌, [], false, IfOk};
ghost use Rattle.nm_model_answer.specs.Show.{is_not_one};
ghost use Rattle.nm_faults.specs.Faults.{HasCauseOf};
ghost use Rattle.nm_lanes.specs.declared.script.ScriptLine.{ScriptLine};
ghost use Rattle.nm_line.specs.Desk.{IsReady, KeepsLoans, Stands, StaysDurable, place_of};
ghost use Rattle.nm_line.specs.Line.{Ends, refused_with};
ghost use Rattle.nm_prepare.specs.Prepared.{IsPrepared};
ghost use Rattle.nm_line.specs.ShowAnswer.{IsAfterReads, IsAfterShow, bodies_fault, is_folder_fault, show_fault, show_outcome, tells_not_one};
ghost use Rattle.nm_prepare.specs.declared.prepared.Prepared.TheVariants as ready;
ghost use Rattle.nm_log.specs.ParsedLine.{parse_line};
ghost use Rattle.nm_scan.specs.Bodies.{left_after};

use crate::desk::Desk;
use crate::line_answer::{LineAnswer, refuse, replied};
use nm_base::{Limit, MailPath, Many, MessageId, NoMemory, ShowAsk};
use nm_disk::Disk;
use nm_log::{Crew, Outcome};
use nm_maildir::{Given, Maildir};
use nm_model_answer::Request;
use nm_query::Query;
use nm_render::{ShowError, lead_paths, show_text, shown_ids};
use nm_scan::{BodiesError, read_bodies};
use nm_state::Snapshot;
use std::alloc::Global;

/// A show, and the index that it is made on.
#[derive(Drop)]
struct Show<'s> {
    ask: &'s ShowAsk,
    snapshot: &'s Snapshot,
}

/// Why there is nothing to show.
#[derive(Drop)]
enum ShowFault {
    /// Raw form shows one message, and the query finds n.
    NotOne { found: u64 },
    /// The file that raw form asks for is not there any more, or it is too long.
    Gone { path: MailPath },
    MailFault,
    /// A file has more bytes than may still be shown.
    ShowBytes,
    NoMemory,
}

/// Shows messages of the index that is shown.
pub(crate) fn run_show<R, M: Maildir, D: Disk>(
    crew: &Crew<'_, R>,
    ask: ShowAsk,
    query: &Query,
    left: u64,
    desk: &mut Desk<'_, '_, '_, M, D>,
    given: &mut Many<Given>,
) -> Result<LineAnswer, NoMemory>
    requires fresh { given.old ≡ [] }
    requires ready { IsReady desk.old.writer.now (D.observed desk.old.disk.now) }
    ensures ends { (line : ScriptLine) → IsPrepared (parse_line line) line.input (ready.Show ask query.now)
        → Ends crew.now.setting.now.moment (place_of M.observed D.observed desk.old left) line given.new result (place_of M.observed D.observed desk.new (left_after left given.new)) }
    ensures stands { Stands desk.new.writer.now (D.observed desk.new.disk.now) }
    ensures durable { StaysDurable D.observed desk.old desk.new }
    ensures loans { KeepsLoans desk.old desk.new }
{
    let show = Show {
        ask: &ask,
        snapshot: desk.writer.snapshot(),
    };
    match show_messages(crew, &show, query, left, desk.mail, given) {
        Ok(text) => replied(Request::Show(ask), text),
        Err(fault) => refuse_show(crew.alloc, fault),
    }
}

/// Shows the messages that a query finds: their files are read, of at most n bytes in all, and what is answered is noted.
fn show_messages<R, M: Maildir>(
    crew: &Crew<'_, R>,
    show: &Show<'_>,
    query: &Query,
    left: u64,
    mail: &mut M,
    given: &mut Many<Given>,
) -> Result<Many<u8>, ShowFault>
    requires fresh { given.old ≡ [] }
    ensures after { IsAfterShow show.now.ask.now show.now.snapshot.now crew.now.setting.now.moment query.now left (M.observed mail.old) (M.observed mail.new) given.new result }
    ensures cause { HasCauseOf is_folder_fault (M.observed mail.old).faults (M.observed mail.new).faults result }
{
    match shown_ids(
        crew.alloc,
        show.snapshot,
        show.ask,
        query,
        crew.setting.moment,
    ) {
        Ok(ids) => read_and_tell(crew.alloc, show, ids.as_slice(), left, mail, given),
        Err(error) => Err(show_fault(error)),
    }
}

/// Reads the files of these messages, and tells what they hold.
fn read_and_tell<M: Maildir>(
    alloc: Global,
    show: &Show<'_>,
    ids: &[MessageId],
    left: u64,
    mail: &mut M,
    given: &mut Many<Given>,
) -> Result<Many<u8>, ShowFault>
    requires one { is_not_one show.now.ask.now ids.now ≡ false }
    requires fresh { given.old ≡ [] }
    ensures after { IsAfterReads show.now.ask.now show.now.snapshot.now ids.now left (M.observed mail.old) (M.observed mail.new) given.new result }
    ensures one { tells_not_one result ≡ false }
    ensures cause { HasCauseOf is_folder_fault (M.observed mail.old).faults (M.observed mail.new).faults result }
{
    let Ok(paths) = lead_paths(alloc, show.snapshot, ids) else {
        return Err(ShowFault::NoMemory);
    };
    match read_bodies(mail, paths.as_slice(), left, given) {
        Ok(()) => match show_text(alloc, show.snapshot, show.ask, ids, given.as_slice()) {
            Ok(text) => Ok(text),
            Err(error) => Err(show_fault(error)),
        },
        Err(error) => Err(bodies_fault(error)),
    }
}

/// The refusal of a show.
fn refuse_show(alloc: Global, fault: ShowFault) -> Result<LineAnswer, NoMemory>
    ensures some { IfOk result (λ _. fault ≢ ShowFault.NoMemory) }
    ensures refused { IfOk result (λ done. done ≡ refused_with (show_outcome fault)) }
{
    match fault {
        ShowFault::NotOne { found } => refuse(alloc, Outcome::NotOne { found }),
        ShowFault::Gone { path } => refuse(alloc, Outcome::Gone { path }),
        ShowFault::MailFault => refuse(alloc, Outcome::MailFault),
        ShowFault::ShowBytes => refuse(alloc, Outcome::Limit(Limit::ShowBytes)),
        ShowFault::NoMemory => Err(NoMemory),
    }
}

fn show_fault(error: ShowError) -> ShowFault
    ensures { result ≡ show_fault error }
{
    match error {
        ShowError::NotOne { found } => ShowFault::NotOne { found },
        ShowError::Gone { path } => ShowFault::Gone { path },
        ShowError::NoMemory => ShowFault::NoMemory,
    }
}

fn bodies_fault(error: BodiesError) -> ShowFault
    ensures { result ≡ bodies_fault error }
{
    match error {
        BodiesError::MailFault => ShowFault::MailFault,
        BodiesError::ShowBytes => ShowFault::ShowBytes,
        BodiesError::NoMemory => ShowFault::NoMemory,
    }
}
