//! What holds along every run of the machine. No code calls these functions: their clauses are the laws.
ghost use Rattle.std.specs.Prelude.{ℕ, ℤ, List, length};
ghost use Rattle.nm_model_index.specs.declared.base.Base.{Base};
ghost use Rattle.nm_model_machine.specs.Laws.{InOrder, NothingFalls};
ghost use Rattle.nm_model_machine.specs.Machine.{Machine, Runs, Takes, start};
ghost use Rattle.nm_model_machine.specs.declared.step.Step.{Step};

/// Whatever steps are taken, crashes among them, every commit stays in its place and no lane's number falls.
pub fn nothing_falls()
    ensures { (moment : ℤ) (opening : Base) (lanes : ℕ) (before after : List Step) (early late : Machine)
        → Runs moment (start opening lanes) before early → Runs moment early after late → NothingFalls early late }
{}

/// A lane sees nothing that is not shown, and nothing is shown that is not acknowledged.
pub fn only_what_is_shown_is_seen()
    ensures { (moment : ℤ) (opening : Base) (lanes : ℕ) (steps : List Step) (last : Machine)
        → Runs moment (start opening lanes) steps last → InOrder 0 last }
{}

/// From a barrier on each lane sees at least the commits that were there then.
pub fn what_was_met_is_seen()
    ensures { (moment : ℤ) (opening : Base) (lanes : ℕ) (before after : List Step) (early met late : Machine)
        → Runs moment (start opening lanes) before early → Takes moment early Step.Meet met → Runs moment met after late
        → InOrder (length early.commits) late }
{}

/// After a crash each lane sees all that the disk has.
pub fn what_was_reopened_is_seen()
    ensures { (moment : ℤ) (opening : Base) (lanes : ℕ) (before after : List Step) (early there late : Machine)
        → Runs moment (start opening lanes) before early → Takes moment early Step.Reopen there → Runs moment there after late
        → InOrder (length early.commits) late }
{}
