//! The steps of a log, made of its marks and the commits when a session ends, for `nm_session`. They take no memory.

ghost use Rattle.std.specs.Prelude.{◌≡◌, ◌+◌, ◌≤◌, ◌++◌, length};
ghost use Rattle.std.specs.Vec.Iter.{into_iter_items, into_iter_len};
ghost use Rattle.nm_trace.specs.Trace.{after_first_commit, begin_of_first, left_by, steps_by, steps_of, steps_of_first};

use crate::trace::Mark;
use nm_base::{Many, Room};
use nm_commit::Commit;
use nm_log::Said;
use nm_model_machine::Step;
use std::alloc::Global;
use std::vec::IntoIter;

/// Pushes the steps that the marks represent, with these commits.
pub fn push_steps(marks: Many<Mark>, commits: Many<Commit>, steps: &mut Room<Step>)
    requires { length (steps_of marks commits) ≤ steps.old.1 }
    ensures { steps.new.0 ≡ steps.old.0 ++ steps_of marks commits }
{
    let mut marks = marks.into_vec().into_iter();
    let mut commits = commits.into_vec().into_iter();
    'marks: while let Some(mark) = marks.next() {
        push_mark(mark, &mut commits, steps);
    }
}

/// Pushes the steps of one mark.
fn push_mark(mark: Mark, commits: &mut IntoIter<Commit, Global>, steps: &mut Room<Step>)
    requires whole { into_iter_len commits.old ≡ length (into_iter_items commits.old) }
    requires room { length (steps_by mark (into_iter_items commits.old)) ≤ steps.old.1 }
    ensures list { steps.new.0 ≡ steps.old.0 ++ steps_by mark (into_iter_items commits.old) }
    ensures spare { steps.new.1 + length (steps_by mark (into_iter_items commits.old)) ≡ steps.old.1 }
    ensures left { into_iter_items commits.new ≡ left_by mark (into_iter_items commits.old) }
    ensures whole { into_iter_len commits.new ≡ length (into_iter_items commits.new) }
{
    match mark {
        Mark::Made => push_made(commits, steps),
        Mark::Begun => push_begun(commits, steps),
        Mark::LaneRead { lane } => steps.push_spare(Step::See { lane }),
        Mark::Reply { lane, said } => steps.push_spare(reply_step(lane, said)),
        Mark::Met => steps.push_spare(Step::Meet),
    }
}

fn reply_step(lane: u32, said: Said) -> Step
    ensures { result ≡ Step.Reply lane said.request said.text }
{
    Step::Reply {
        lane,
        request: said.request,
        text: said.text,
    }
}

/// A commit was begun, is there, and is shown.
fn push_made(commits: &mut IntoIter<Commit, Global>, steps: &mut Room<Step>)
    requires whole { into_iter_len commits.old ≡ length (into_iter_items commits.old) }
    requires room { length (steps_of_first (into_iter_items commits.old)) ≤ steps.old.1 }
    ensures list { steps.new.0 ≡ steps.old.0 ++ steps_of_first (into_iter_items commits.old) }
    ensures spare { steps.new.1 + length (steps_of_first (into_iter_items commits.old)) ≡ steps.old.1 }
    ensures left { into_iter_items commits.new ≡ after_first_commit (into_iter_items commits.old) }
    ensures whole { into_iter_len commits.new ≡ length (into_iter_items commits.new) }
{
    if let Some(commit) = commits.next() {
        steps.push_spare(Step::Begin { commit });
        steps.push_spare(Step::Append);
        steps.push_spare(Step::Show);
    }
}

/// A commit was begun.
fn push_begun(commits: &mut IntoIter<Commit, Global>, steps: &mut Room<Step>)
    requires whole { into_iter_len commits.old ≡ length (into_iter_items commits.old) }
    requires room { length (begin_of_first (into_iter_items commits.old)) ≤ steps.old.1 }
    ensures list { steps.new.0 ≡ steps.old.0 ++ begin_of_first (into_iter_items commits.old) }
    ensures spare { steps.new.1 + length (begin_of_first (into_iter_items commits.old)) ≡ steps.old.1 }
    ensures left { into_iter_items commits.new ≡ after_first_commit (into_iter_items commits.old) }
    ensures whole { into_iter_len commits.new ≡ length (into_iter_items commits.new) }
{
    if let Some(commit) = commits.next() {
        steps.push_spare(Step::Begin { commit });
    }
}
