//! What the lines of a session leave for its steps, for `reserved_log` and `nm_phase`. The commits are the writer's until the session ends, so that no
//! step takes memory then.

ghost use Rattle.std.specs.Prelude.{◌≡◌, ◌+◌, ◌<◌, ◌≤◌, ◌++◌, ◌∷◌, [], length, IfOk, IfSome};
ghost use Rattle.std.specs.List.{insert};
ghost use Rattle.nm_trace.specs.Trace.{IsPlaceOf, is_of_others, made_by};

use nm_base::{Many, NoMemory};
use nm_log::Said;
use std::alloc::Global;
use std::marker::Model;

/// One step, or those of one commit.
#[derive(Drop)]
pub enum Mark {
    /// A commit was begun, is there, and is shown.
    Made,
    /// A commit was begun, and the disk failed.
    Begun,
    /// A lane other than 0 saw what was shown.
    LaneRead { lane: u32 },
    /// A lane replied.
    Reply { lane: u32, said: Said },
    /// A phase ended.
    Met,
}

/// Marks in their order, with places that are kept free: where one is spare, a mark goes in anywhere and takes no memory.
#[derive(Drop)]
pub struct Trace {
    vec: Vec<Mark>,
    spare: usize,
}

impl Model for Trace {
    ghost use Rattle.std.specs.Prelude.{List, ℕ, ◌+◌, ◌≤◌, vec_len, vec_capacity};
    ghost use Rattle.nm_trace.specs.declared.trace.Mark.{Mark};

    ghost Value = { List Mark × ℕ };

    ghost view = { λ marks. (marks.vec.items, marks.spare) };

    ghost invariant = { λ marks. vec_len marks.vec + marks.spare ≤ vec_capacity marks.vec };
}

impl Trace {
    /// None yet, with n spare places.
    pub fn with_room(alloc: Global, spare: usize) -> Result<Trace, NoMemory>
        ensures { IfOk result (λ marks. marks ≡ ([], spare)) }
    {
        let mut vec = Vec::new(alloc);
        vec.reserve(spare)?;
        Ok(Trace { vec, spare })
    }

    pub fn push_spare(&mut self, mark: Mark)
        requires { 0 < self.old.1 }
        ensures list { self.new.0 ≡ self.old.0 ++ mark ∷ [] }
        ensures spare { self.new.1 + 1 ≡ self.old.1 }
    {
        match self.vec.push(mark) {
            Ok(()) => {}
            Err(_) => unreachable!(),
        }
        self.spare -= 1;
    }

    /// Puts a mark before the one that is at this place.
    pub fn insert_spare(&mut self, at: usize, mark: Mark)
        requires spare { 0 < self.old.1 }
        requires at { at ≤ length self.old.0 }
        ensures list { self.new.0 ≡ insert self.old.0 at mark }
        ensures spare { self.new.1 + 1 ≡ self.old.1 }
    {
        match self.vec.insert(at, mark) {
            Ok(()) => {}
            Err(_) => unreachable!(),
        }
        self.spare -= 1;
    }

    pub fn as_slice(&self) -> &[Mark]
        ensures { result.now ≡ self.now.0 }
    {
        self.vec.as_slice()
    }

    pub fn into_many(self) -> Many<Mark>
        ensures { result ≡ self.0 }
    {
        let Trace { vec, spare: _ } = self;
        Many::from_vec(vec)
    }
}

/// Says whether no phase ends with the mark, and it is none of this lane.
fn is_of_others(lane: u32, mark: &Mark) -> bool
    ensures { result ≡ is_of_others lane mark.now }
{
    match mark {
        Mark::Made => true,
        Mark::Begun => true,
        Mark::LaneRead { lane: other } => *other != lane,
        Mark::Reply { lane: other, .. } => *other != lane,
        Mark::Met => false,
    }
}

/// How many commits were made with the mark.
fn made_by(mark: &Mark) -> u64
    ensures value { result ≡ made_by mark.now }
    ensures one { result ≤ 1 }
{
    match mark {
        Mark::Made => 1,
        _ => 0,
    }
}

/// Where in the marks a read of this lane belongs that saw all commits but the last n.
pub fn place_of(marks: &[Mark], lane: u32, behind: u64) -> Option<usize>
    ensures { IfSome result (IsPlaceOf lane behind marks.now) }
{
    let mut left = behind;
    let count = marks.len();
    'marks: for passed in 0..count {
        if left == 0 {
            return Some(count - passed);
        }
        let mark = &marks[count - passed - 1];
        if !is_of_others(lane, mark) {
            return None;
        }
        left -= made_by(mark);
    }
    if left == 0 { Some(0) } else { None }
}
