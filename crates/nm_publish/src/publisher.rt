//! The writer's side: what is published next, and the publishing. `nm_writer` publishes each commit so.

ghost use Rattle.std.specs.Prelude.{◌≡◌, [], None, Some, IfOk, IsSomeAnd, MatchResult};
ghost use Rattle.std.specs.Arc.{arc_value};
ghost use Rattle.nm_commit.specs.declared.change.Commit.{Commit};
ghost use Rattle.nm_model_index.specs.Index.{committed};
ghost use Rattle.nm_publish.specs.Published.{index_of, with_commit};
ghost use Rattle.nm_record.specs.CommitGrammar.{commit_grammar};

use crate::list::{Head, Token};
use crate::publication::{add, begin};
use crate::reader::Reader;
use crate::seats::{WriterSeat, another_seat, turn, writer_seat};
use crate::shown::Shown;
use crate::slot::Next;
use core::mem;
use nm_base::NoMemory;
use nm_commit::Commit;
use nm_journal::Receipt;
use nm_model_index::the_revision_counts_the_commits;
use nm_state::Snapshot;
use std::alloc::Global;
use std::marker::Model;
use std::snapshot;
use std::sync::{Arc, Wait};

/// What is to be shown next, twice: for the writer and for the readers.
#[derive(Drop)]
pub struct Staged {
    pub commit: snapshot::Snapshot<Commit>,
    pub snap: Arc<Snapshot, Global>,
    pub copy: Arc<Snapshot, Global>,
}

/// Shows snapshots, one after the other. A contract sees what was shown, and the commit that is staged. It is not dropped:
/// end it by `finish`.
pub struct Shower {
    writer: WriterSeat,
    head: Head,
    token: Token,
    count: u64,
    current: Arc<Snapshot, Global>,
    staged: Option<Staged>,
}

impl Model for Shower {
    ghost use Rattle.std.specs.Prelude.{◌≡◌, [], Some, drop, IfSome};
    ghost use Rattle.std.specs.Arc.{arc_value};
    ghost use Rattle.std.specs.Option.{option_map};
    ghost use Rattle.left_right.specs.Sides.{view as knowledge};
    ghost use Rattle.nm_model_index.specs.Index.{committed};
    ghost use Rattle.nm_publish.specs.List.{IsHeld};
    ghost use Rattle.nm_publish.specs.Published.{ShowerState, published};

    ghost Value = { ShowerState };

    ghost view = { λ s. record { shown = published s.token.book s.token.log; staged = option_map (λ staged. staged.commit.value) s.staged } };

    ghost invariant = { λ s. IsHeld s.token.book s.token.log s.head s.count (arc_value s.current)
        × (s.writer.desk.shown.value.seen ≡ s.token)
        × (knowledge s.writer.desk.place ≡ Some (record { seen = s.token }))
        × (drop s.writer.behind s.writer.log.items ≡ [])
        × IfSome s.staged (λ staged. (arc_value staged.snap ≡ committed (arc_value s.current) staged.commit.value) × (arc_value staged.copy ≡ arc_value staged.snap)) };
}

impl Shower {
    /// Shows a first snapshot, with room for n readers.
    pub(crate) fn open<R: Wait>(
        rt: &R,
        alloc: Global,
        first: Arc<Snapshot, Global>,
        readers: u32,
    ) -> Result<Shower, NoMemory>
        ensures opening { IfOk result (λ shower. shower.shown.opening ≡ arc_value first) }
        ensures commits { IfOk result (λ shower. (shower.shown.commits ≡ []) × (shower.staged ≡ None)) }
    {
        let (head, token) = begin(&first);
        let writer = writer_seat(rt, alloc, &first, &token, readers)?;
        Ok(Shower {
            writer,
            head,
            token,
            count: 0,
            current: first,
            staged: None,
        })
    }

    /// A reader that has seen what was shown.
    pub(crate) fn reader(&mut self) -> Result<Reader, NoMemory>
        ensures shower { self.new ≡ self.old }
        ensures reader { IfOk result (λ reader. reader ≡ self.old.shown) }
    {
        let seat = another_seat(&mut self.writer)?;
        Ok(Reader::new(seat, self.tell()))
    }

    /// The snapshot that is shown.
    pub fn now(&self) -> &Arc<Snapshot, Global>
        ensures { arc_value result.now ≡ index_of self.now.shown }
    {
        &self.current
    }

    /// Makes `next`, which is `now` after the commit, ready to be shown. It shows nothing.
    pub fn stage(&mut self, commit: &Commit, next: Arc<Snapshot, Global>) -> Result<(), NoMemory>
        requires none { self.old.staged ≡ None }
        requires next { arc_value next ≡ committed (index_of self.old.shown) commit.now }
        ensures { MatchResult result (λ _. self.new ≡ record self.old { staged = Some commit.now }) (λ _. self.new ≡ self.old) }
    {
        let second = Arc::try_clone(&next)?;
        self.staged = Some(Staged {
            commit: snapshot::Snapshot::of(commit),
            snap: next,
            copy: second,
        });
        Ok(())
    }

    /// Shows what is staged, for which a receipt is given: its record has the bytes of the staged commit. It takes no memory
    /// and never fails.
    pub fn show<R: Wait>(&mut self, rt: &R, receipt: Receipt) -> Shown
        requires { IsSomeAnd self.old.staged (λ commit. receipt.body ≡ commit_grammar.bytes commit) }
        ensures shown { (commit : Commit) → self.old.staged ≡ Some commit → self.new.shown ≡ with_commit self.old.shown commit }
        ensures staged { self.new.staged ≡ None }
        ensures told { result ≡ self.new.shown }
    {
        let Some(staged) = mem::replace(&mut self.staged, None) else {
            unreachable!()
        };
        drop(receipt);
        self.show_staged(rt, staged);
        self.tell()
    }

    fn show_staged<R: Wait>(&mut self, rt: &R, staged: Staged)
        requires none { self.old.staged ≡ None }
        requires snap { arc_value staged.snap ≡ committed (index_of self.old.shown) staged.commit.value }
        requires copy { arc_value staged.copy ≡ arc_value staged.snap }
        ensures { self.new ≡ record { shown = with_commit self.old.shown staged.commit.value; staged = None } }
    {
        the_revision_counts_the_commits();
        let Staged { commit, snap, copy } = staged;
        // A revision is a number of 64 bits, and no less than the number of commits.
        let _ = snap.revision();
        add(rt, &self.head, &mut self.token, self.count, &commit);
        let next = Next {
            snap: copy,
            seen: self.token.again(),
        };
        turn(rt, &mut self.writer, next);
        self.count += 1;
        self.current = snap;
    }

    /// Lets what is staged go. It shows nothing.
    pub fn drop_staged(&mut self)
        ensures { self.new ≡ record self.old { staged = None } }
    {
        self.staged = None;
    }

    /// Names what was shown last, at first the opening index. It takes no memory and waits for nobody.
    pub fn tell(&mut self) -> Shown
        ensures shower { self.new ≡ self.old }
        ensures shown { result ≡ self.old.shown }
    {
        Shown::new(self.token.again(), self.current.revision())
    }

    /// Ends the publishing. It waits until no reader is at a snapshot; readers find none after it.
    pub fn finish<R: Wait>(self, rt: &R) {
        let Shower {
            writer,
            head: _,
            token: _,
            count: _,
            current: _,
            staged: _,
        } = self;
        writer.take(rt);
    }
}
