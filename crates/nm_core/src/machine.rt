//! The machine's state and its steps: `test_session` steps it, and learns whether the step is lawful.

ghost use Rattle.std.specs.Prelude.{◌≡◌, ◌↔◌, ◌≤◌, ◌≤ℤ◌, ◌++◌, [], ◌∷◌, length, pos, replicate, true, IfOk, IsTrue, OnErr, OnOk};
ghost use Rattle.nm_base.specs.Limits.{max_date};
ghost use Rattle.nm_commit.specs.Files.{Fits};
ghost use Rattle.nm_core.specs.Core.{Acknowledges, Answers};
ghost use Rattle.nm_dates.specs.Seconds.{IsMoment};
ghost use Rattle.nm_model_index.specs.Index.{committed};
ghost use Rattle.nm_model_machine.specs.Laws.{InOrder};
ghost use Rattle.nm_model_machine.specs.Machine.{IsAllowed, index_after, last_index, start};

use crate::reply::may_reply;
use nm_base::{Copies, Many, NoMemory};
use nm_commit::Commit;
use nm_model_answer::Request;
use nm_model_machine::Step;
use nm_state::Snapshot;
use std::alloc::Global;
use std::marker::Model;
use std::mem;
use thiserror::Error;

/// Why a step was not taken.
#[derive(Clone, Copy, Debug, Error)]
pub enum CoreError {
    /// The machine does not allow it.
    #[error("not now")]
    NotNow,
    #[error("no memory")]
    NoMemory,
}

impl From<NoMemory> for CoreError {
    ghost use Rattle.nm_core.specs.declared.machine.CoreError.TheVariants.{NoMemory as OutOfMemory};

    ghost from_gives = { λ _ e. e ≡ OutOfMemory };

    fn from(_: NoMemory) -> CoreError {
        CoreError::NoMemory
    }
}

/// A commit, and the index after it.
#[derive(Drop)]
pub(crate) struct Made {
    pub(crate) commit: Commit,
    pub(crate) index: Snapshot,
}

impl Copies for Made {
    fn copy(&self) -> Result<Made, NoMemory> {
        Ok(Made {
            commit: self.commit.copy()?,
            index: self.index.copy()?,
        })
    }
}

/// The machine of commits and replies, from an index on. Beside each commit it keeps the index after it.
#[derive(Drop)]
pub struct Core {
    alloc: Global,
    opening: Snapshot,
    commits: Many<Made>,
    in_flight: Option<Made>,
    shown: usize,
    /// For each lane, how many commits it sees.
    lanes: Many<usize>,
    up: bool,
    /// How many commits there were at the last barrier or opening.
    met: usize,
}

impl Model for Core {
    ghost use Rattle.std.specs.Prelude.{◌<◌, length};
    ghost use Rattle.nm_core.specs.Core.{AreIndexes, Kept, machine_of};
    ghost use Rattle.nm_model_machine.specs.Laws.{InOrder};

    ghost Value = { Kept };

    ghost view = { λ c. record { machine = machine_of c.opening c.commits c.in_flight c.shown c.lanes c.up; met = c.met } };

    ghost invariant = { λ c. InOrder c.met (machine_of c.opening c.commits c.in_flight c.shown c.lanes c.up) × (0 < length c.lanes) × AreIndexes c.opening c.commits c.in_flight };
}

impl Core {
    /// Nothing has happened yet. Lanes number 1 to 16.
    pub fn new(alloc: Global, opening: Snapshot, lanes: u32) -> Result<Core, NoMemory>
        requires some { 1 ≤ lanes }
        requires most { lanes ≤ 16 }
        ensures { IfOk result (λ core. core ≡ record { machine = start opening lanes; met = 0 }) }
    {
        Ok(Core {
            alloc,
            opening,
            commits: Many::new(alloc),
            in_flight: None,
            shown: 0,
            lanes: none_seeing(alloc, lanes as usize)?,
            up: true,
            met: 0,
        })
    }

    /// Takes the step, if it may be taken now. `moment` is the second, counted from 1970-01-01 00:00:00 UTC, at
    /// which a reply is given. A commit for which an index has no more numbers finds no memory.
    pub fn step(&mut self, step: &Step, moment: i64) -> Result<(), CoreError>
        requires from_1970 { pos 0 ≤ℤ moment }
        requires moment { moment ≤ℤ pos max_date }
        ensures answer { Answers moment self.old step.now result self.new }
        ensures order { InOrder self.new.met self.new.machine }
    {
        let _ = &self.met;
        if let Step::Reopen = step {
            return self.reopen(moment);
        }
        if !self.up {
            return Err(CoreError::NotNow);
        }
        match step {
            Step::Begin { commit } => self.begin(commit, moment),
            Step::Append => self.append(moment),
            Step::Show => self.show(moment),
            Step::See { lane } => self.see(*lane, moment),
            Step::Meet => self.meet(moment),
            Step::Reply {
                lane,
                request,
                text,
            } => self.reply(*lane, request, text.as_slice(), moment),
            Step::Crash { kept } => self.crash(*kept, moment),
            Step::Reopen => Err(CoreError::NotNow),
        }
    }

    fn begin(&mut self, commit: &Commit, moment: i64) -> Result<(), CoreError>
        requires up { self.old.machine.up ≡ true }
        ensures answer { Answers moment self.old (Step.Begin commit.now) result self.new }
    {
        if !self.may_begin(commit, moment)? {
            return Err(CoreError::NotNow);
        }
        let index = index_with(self.last_index(), commit)?;
        let commit = commit.copy()?;
        self.in_flight = Some(Made { commit, index });
        Ok(())
    }

    fn may_begin(&self, commit: &Commit, moment: i64) -> Result<bool, NoMemory>
        requires up { self.now.machine.up ≡ true }
        ensures { IfOk result (λ may. IsTrue may ↔ IsAllowed moment self.now.machine (Step.Begin commit.now)) }
    {
        let _ = moment;
        if self.commits.len() != self.shown {
            return Ok(false);
        }
        if self.in_flight.is_some() {
            return Ok(false);
        }
        self.last_index().fits(commit)
    }

    /// The index after all commits.
    fn last_index(&self) -> &Snapshot
        ensures { result.now ≡ last_index self.now.machine }
    {
        self.index_after(self.commits.len())
    }

    /// The index after the first commits, n of them.
    fn index_after(&self, seen: usize) -> &Snapshot
        requires { seen ≤ length self.now.machine.commits }
        ensures { result.now ≡ index_after self.now.machine seen }
    {
        match seen.checked_sub(1) {
            None => &self.opening,
            Some(last) => &self.commits.as_slice()[last].index,
        }
    }

    fn append(&mut self, moment: i64) -> Result<(), CoreError>
        requires up { self.old.machine.up ≡ true }
        ensures answer { Answers moment self.old Step.Append result self.new }
    {
        let _ = moment;
        self.acknowledge()
    }

    /// The commit on its way is there.
    fn acknowledge(&mut self) -> Result<(), CoreError>
        ensures { Acknowledges self.old result self.new }
    {
        let Some(made) = &self.in_flight else {
            return Err(CoreError::NotNow);
        };
        push_copy(&mut self.commits, made)?;
        self.in_flight = None;
        Ok(())
    }

    fn show(&mut self, moment: i64) -> Result<(), CoreError>
        requires up { self.old.machine.up ≡ true }
        ensures answer { Answers moment self.old Step.Show result self.new }
    {
        let _ = moment;
        let known = self.commits.len();
        if known - self.shown != 1 {
            return Err(CoreError::NotNow);
        }
        self.shown = known;
        self.lanes.replace(0, known);
        Ok(())
    }

    fn see(&mut self, lane: u32, moment: i64) -> Result<(), CoreError>
        requires up { self.old.machine.up ≡ true }
        ensures answer { Answers moment self.old (Step.See lane) result self.new }
    {
        let _ = moment;
        let lane = lane as usize;
        if lane == 0 || lane >= self.lanes.len() {
            return Err(CoreError::NotNow);
        }
        self.lanes.replace(lane, self.shown);
        Ok(())
    }

    fn meet(&mut self, moment: i64) -> Result<(), CoreError>
        requires up { self.old.machine.up ≡ true }
        ensures answer { Answers moment self.old Step.Meet result self.new }
    {
        let _ = moment;
        if self.commits.len() != self.shown {
            return Err(CoreError::NotNow);
        }
        let lanes = mem::replace(&mut self.lanes, Many::new(self.alloc));
        self.lanes = all_seeing(lanes, self.shown);
        self.met = self.shown;
        Ok(())
    }

    fn reply(&self, lane: u32, request: &Request, text: &[u8], moment: i64) -> Result<(), CoreError>
        requires up { self.now.machine.up ≡ true }
        requires moment { IsMoment moment }
        ensures answer { Answers moment self.now (Step.Reply lane request.now text.now) result self.now }
    {
        let lane = lane as usize;
        if lane >= self.lanes.len() {
            return Err(CoreError::NotNow);
        }
        let seen = self.lanes.as_slice()[lane];
        let index = self.index_after(seen);
        if !may_reply(self.alloc, index, request, text, moment)? {
            return Err(CoreError::NotNow);
        }
        Ok(())
    }

    fn crash(&mut self, kept: bool, moment: i64) -> Result<(), CoreError>
        requires up { self.old.machine.up ≡ true }
        ensures answer { Answers moment self.old (Step.Crash kept) result self.new }
    {
        let _ = moment;
        if kept {
            if let Err(error) = self.acknowledge() {
                return Err(error);
            }
        }
        self.in_flight = None;
        self.up = false;
        Ok(())
    }

    fn reopen(&mut self, moment: i64) -> Result<(), CoreError>
        ensures answer { Answers moment self.old Step.Reopen result self.new }
    {
        let _ = moment;
        if self.up {
            return Err(CoreError::NotNow);
        }
        let known = self.commits.len();
        self.shown = known;
        let lanes = mem::replace(&mut self.lanes, Many::new(self.alloc));
        self.lanes = all_seeing(lanes, known);
        self.up = true;
        self.met = known;
        Ok(())
    }
}

/// The index with the commit.
fn index_with(index: &Snapshot, commit: &Commit) -> Result<Snapshot, NoMemory>
    requires { Fits index.now.files commit.now }
    ensures { IfOk result (λ after. after ≡ committed index.now commit.now) }
{
    if !index.has_numbers(commit) {
        return Err(NoMemory);
    }
    index.apply(commit)
}

fn push_copy(commits: &mut Many<Made>, made: &Made) -> Result<(), NoMemory>
    ensures ok { OnOk result (commits.new ≡ commits.old ++ made.now ∷ []) }
    ensures err { OnErr result (commits.new ≡ commits.old) }
{
    let copied = made.copy()?;
    commits.push(copied)
}

fn none_seeing(alloc: Global, lanes: usize) -> Result<Many<usize>, NoMemory>
    ensures { IfOk result (λ all. all ≡ replicate lanes 0) }
{
    let mut all = Vec::new(alloc);
    all.resize(lanes, 0)?;
    Ok(Many::from_vec(all))
}

// In place, since a barrier is to take no memory.
fn all_seeing(lanes: Many<usize>, shown: usize) -> Many<usize>
    ensures { result ≡ replicate (length lanes) shown }
{
    let mut all = lanes.into_vec();
    all.as_mut_slice().fill(shown);
    Many::from_vec(all)
}
