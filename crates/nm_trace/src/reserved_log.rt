//! Room for the log of a session, which `nm_session` makes before it opens the index: after a commit that was acknowledged no step of the
//! log may run out of memory.

ghost use Rattle.std.specs.Prelude.{◌≡◌, ◌+◌, ◌*◌, ◌<◌, ◌≤◌, ◌++◌, ◌∷◌, [], codes, drop, length, replicate, take, IfOk, if◌then◌else◌};
ghost use Rattle.std.specs.Option.{option_to_list};
ghost use Rattle.nm_trace.specs.Trace.{marks_for, said_marks};
ghost use Rattle.nm_trace.specs.ReservedLog.{AreFallbacks, HasRoom};

use crate::trace::{Mark, Trace};
use nm_base::{Many, NoMemory, Room};
use nm_log::{LineLog, Said};
use nm_model_machine::Step;
use std::alloc::Global;

/// Places for the logs, the marks and the steps of lines.
#[derive(Drop)]
pub struct ReservedLog {
    pub logs: Room<LineLog>,
    pub marks: Trace,
    pub steps: Room<Step>,
    /// The texts of lines that run out of memory.
    pub fallbacks: Many<Many<u8>>,
}

/// The most commits of a session, each with one mark.
const MAX_COMMITS: usize = 65_536;

/// The most steps of its commits: each is begun, is there, and is shown.
const MAX_COMMIT_STEPS: usize = 196_608;

impl ReservedLog {
    /// Room for n turns of a session: each has one read and one reply at most, and all of them share the commits of a session.
    pub fn new(alloc: Global, turns: usize) -> Result<ReservedLog, NoMemory>
        ensures { IfOk result (λ reserved. HasRoom turns reserved) }
    {
        let mut logs = Room::new(alloc);
        logs.reserve(turns)?;
        let marks = Trace::with_room(alloc, twice_plus(turns, MAX_COMMITS)?)?;
        let mut steps = Room::new(alloc);
        steps.reserve(twice_plus(turns, MAX_COMMIT_STEPS)?)?;
        let fallbacks = fallbacks_for(alloc, turns)?;
        Ok(ReservedLog {
            logs,
            marks,
            steps,
            fallbacks,
        })
    }

    /// Notes a line of lane 0: its log, and its marks, where it made n commits.
    pub fn note(&mut self, log: LineLog, made: usize, reply: Option<Said>)
        requires logs { 0 < self.old.logs.1 }
        requires marks { length (marks_for made log.disk_failed log.lane (option_to_list reply)) ≤ self.old.marks.1 }
        ensures logs { self.new.logs.0 ≡ self.old.logs.0 ++ log ∷ [] }
        ensures logs_spare { self.new.logs.1 + 1 ≡ self.old.logs.1 }
        ensures marks { self.new.marks.0 ≡ self.old.marks.0 ++ marks_for made log.disk_failed log.lane (option_to_list reply) }
        ensures marks_spare { self.new.marks.1 + length (marks_for made log.disk_failed log.lane (option_to_list reply)) ≡ self.old.marks.1 }
        ensures steps { self.new.steps ≡ self.old.steps }
        ensures fallbacks { self.new.fallbacks ≡ self.old.fallbacks }
    {
        push_marks(&mut self.marks, made, log.disk_failed, log.lane, reply);
        self.logs.push_spare(log);
    }

    /// Notes a line of another lane: its log, and at this place of the marks a read and its reply.
    pub fn note_lane_read(&mut self, log: LineLog, reply: Option<Said>, at: usize)
        requires logs { 0 < self.old.logs.1 }
        requires marks { 2 ≤ self.old.marks.1 }
        requires at { at ≤ length self.old.marks.0 }
        ensures logs { self.new.logs.0 ≡ self.old.logs.0 ++ log ∷ [] }
        ensures logs_spare { self.new.logs.1 + 1 ≡ self.old.logs.1 }
        ensures marks { self.new.marks.0 ≡ take at self.old.marks.0 ++ ((Mark.LaneRead log.lane ∷ said_marks log.lane (option_to_list reply)) ++ drop at self.old.marks.0) }
        ensures marks_spare { self.old.marks.1 ≤ self.new.marks.1 + 2 }
        ensures steps { self.new.steps ≡ self.old.steps }
        ensures fallbacks { self.new.fallbacks ≡ self.old.fallbacks }
    {
        put_lane_read(&mut self.marks, log.lane, reply, at);
        self.logs.push_spare(log);
    }

    /// Notes that a phase ended.
    pub fn note_barrier(&mut self)
        requires { 0 < self.old.marks.1 }
        ensures marks { self.new.marks.0 ≡ self.old.marks.0 ++ Mark.Met ∷ [] }
        ensures marks_spare { self.new.marks.1 + 1 ≡ self.old.marks.1 }
        ensures logs { self.new.logs ≡ self.old.logs }
        ensures steps { self.new.steps ≡ self.old.steps }
        ensures fallbacks { self.new.fallbacks ≡ self.old.fallbacks }
    {
        self.marks.push_spare(Mark::Met);
    }
}

/// Two for each, and these; what no number holds is out of memory too.
fn twice_plus(turns: usize, more: usize) -> Result<usize, NoMemory>
    ensures { IfOk result (λ places. places ≡ 2 * turns + more) }
{
    match turns.checked_mul(2) {
        Some(twice) => plus(twice, more),
        None => Err(NoMemory),
    }
}

fn plus(places: usize, more: usize) -> Result<usize, NoMemory>
    ensures { IfOk result (λ sum. sum ≡ places + more) }
{
    match places.checked_add(more) {
        Some(sum) => Ok(sum),
        None => Err(NoMemory),
    }
}

/// The texts of n lines that run out of memory.
fn fallbacks_for(alloc: Global, lines: usize) -> Result<Many<Many<u8>>, NoMemory>
    ensures texts { IfOk result (λ fallbacks. AreFallbacks fallbacks) }
    ensures length { IfOk result (λ fallbacks. length fallbacks ≡ lines) }
{
    let mut fallbacks = Many::new(alloc);
    'lines: for _line in 0..lines {
        fallbacks.push(Many::from_slice(alloc, b"notmuch: no memory\n")?)?;
    }
    Ok(fallbacks)
}

/// Takes a text of a line that runs out of memory.
pub fn take_fallback(fallbacks: &mut Many<Many<u8>>) -> Many<u8>
    requires texts { AreFallbacks fallbacks.old }
    requires some { 0 < length fallbacks.old }
    ensures text { result ≡ codes "notmuch: no memory\n" }
    ensures texts { AreFallbacks fallbacks.new }
    ensures length { length fallbacks.new + 1 ≡ length fallbacks.old }
{
    match fallbacks.pop() {
        Some(text) => text,
        None => unreachable!(),
    }
}

fn put_lane_read(marks: &mut Trace, lane: u32, reply: Option<Said>, at: usize)
    requires spare { 2 ≤ marks.old.1 }
    requires at { at ≤ length marks.old.0 }
    ensures list { marks.new.0 ≡ take at marks.old.0 ++ ((Mark.LaneRead lane ∷ said_marks lane (option_to_list reply)) ++ drop at marks.old.0) }
    ensures spare { marks.old.1 ≤ marks.new.1 + 2 }
{
    match reply {
        Some(said) => {
            marks.insert_spare(at, Mark::Reply { lane, said });
            marks.insert_spare(at, Mark::LaneRead { lane });
        }
        None => marks.insert_spare(at, Mark::LaneRead { lane }),
    }
}

fn push_marks(marks: &mut Trace, made: usize, in_flight: bool, lane: u32, reply: Option<Said>)
    requires { length (marks_for made in_flight lane (option_to_list reply)) ≤ marks.old.1 }
    ensures list { marks.new.0 ≡ marks.old.0 ++ marks_for made in_flight lane (option_to_list reply) }
    ensures spare { marks.new.1 + length (marks_for made in_flight lane (option_to_list reply)) ≡ marks.old.1 }
{
    push_made(marks, made);
    push_last(marks, in_flight, lane, reply);
}

fn push_made(marks: &mut Trace, made: usize)
    requires { made ≤ marks.old.1 }
    ensures list { marks.new.0 ≡ marks.old.0 ++ replicate made Mark.Made }
    ensures spare { marks.new.1 + made ≡ marks.old.1 }
{
    'made: for _mark in 0..made {
        marks.push_spare(Mark::Made);
    }
}

fn push_last(marks: &mut Trace, in_flight: bool, lane: u32, reply: Option<Said>)
    requires { length ((if in_flight then Mark.Begun ∷ [] else []) ++ said_marks lane (option_to_list reply)) ≤ marks.old.1 }
    ensures list { marks.new.0 ≡ marks.old.0 ++ ((if in_flight then Mark.Begun ∷ [] else []) ++ said_marks lane (option_to_list reply)) }
    ensures spare { marks.new.1 + length ((if in_flight then Mark.Begun ∷ [] else []) ++ said_marks lane (option_to_list reply)) ≡ marks.old.1 }
{
    if in_flight {
        marks.push_spare(Mark::Begun);
    }
    push_said(marks, lane, reply);
}

fn push_said(marks: &mut Trace, lane: u32, reply: Option<Said>)
    requires { length (said_marks lane (option_to_list reply)) ≤ marks.old.1 }
    ensures list { marks.new.0 ≡ marks.old.0 ++ said_marks lane (option_to_list reply) }
    ensures spare { marks.new.1 + length (said_marks lane (option_to_list reply)) ≡ marks.old.1 }
{
    if let Some(said) = reply {
        marks.push_spare(Mark::Reply { lane, said });
    }
}
