//! A line more of another lane and the end of a phase keep the statements of a session. These functions run no code: their clauses are the
//! laws, which the loop of `nm_session` calls.

ghost use Rattle.std.specs.Prelude.{◌≡◌, ◌+◌, ℕ, ℤ, List, [], ◌∷◌, ◌++◌, Option};
ghost use Rattle.nm_commit.specs.declared.change.Commit.{Commit};
ghost use Rattle.nm_model_index.specs.declared.base.Base.{Base};
ghost use Rattle.nm_model_machine.specs.declared.step.Step.{Step};
ghost use Rattle.nm_maildir.specs.Observed.{ObservedMail};
ghost use Rattle.nm_maildir.specs.Tree.{Tree};
ghost use Rattle.nm_history.specs.Call.{Devices};
ghost use Rattle.nm_history.specs.CrashPrefix.{appends};
ghost use Rattle.nm_history.specs.Given.{GivenAlong};
ghost use Rattle.nm_history.specs.LineAnswers.{LaneAnswers, LineAnswers};
ghost use Rattle.nm_history.specs.LineCommits.{LineCommits};
ghost use Rattle.nm_history.specs.LineResult.{CommitNothing, IsLaneReadResult, Place, StandsAt, lane_read_steps};
ghost use Rattle.nm_history.specs.Lines.{Before, RunLine};
ghost use Rattle.nm_history.specs.MachineRun.{MachineRun, Replied};

/// A read and the reply after it go on with the run of the machine, where they come before the steps that were taken since.
pub fn a_lane_read_keeps_the_machine_run()
    ensures { (opening : Base) (moment : ℤ) (phase : ℕ) (first : Before) (front back taken : List Step) (lines : List RunLine) (acknowledged : List Commit)
        (index : Base) (ran : RunLine) → IsLaneReadResult moment phase opening acknowledged index ran taken back
        → MachineRun opening moment first (front ++ back) lines acknowledged phase
        → MachineRun opening moment first (front ++ (taken ++ back)) (lines ++ ran ∷ []) acknowledged phase }
{}

/// At a barrier the run of the machine goes on, and a phase has ended.
pub fn a_barrier_keeps_the_machine_run()
    ensures { (opening : Base) (moment : ℤ) (phase : ℕ) (first : Before) (steps : List Step) (lines : List RunLine) (acknowledged : List Commit)
        → MachineRun opening moment first steps lines acknowledged phase
        → MachineRun opening moment first (steps ++ Step.Meet ∷ []) lines acknowledged (phase + 1) }
{}

/// A line more of another lane is answered on the index that it saw.
pub fn a_lane_read_keeps_the_answers()
    ensures { (opening : Base) (moment : ℤ) (phase : ℕ) (entry : Devices) (front back taken : List Step) (lines others : List RunLine)
        (acknowledged : List Commit) (place : Place) (index : Base) (ran : RunLine) → StandsAt opening entry (front ++ back) lines acknowledged place
        → IsLaneReadResult moment phase opening acknowledged index ran taken back
        → LaneAnswers opening moment (front ++ back) others → LaneAnswers opening moment (front ++ (taken ++ back)) (others ++ ran ∷ []) }
{}

/// A read commits nothing.
pub fn a_lane_read_commits_nothing()
    ensures { (lane : ℕ) (replies : List Replied) → CommitNothing (lane_read_steps lane replies) }
{}

/// Steps that commit nothing, wherever they are, leave where the session is, the commits of lines, and how many were acknowledged.
pub fn what_stands_between_keeps_the_commits()
    ensures stands { (opening : Base) (entry : Devices) (front back taken : List Step) (lines : List RunLine) (acknowledged : List Commit) (place : Place)
        → CommitNothing taken → StandsAt opening entry (front ++ back) lines acknowledged place → StandsAt opening entry (front ++ (taken ++ back)) lines acknowledged place }
    ensures commits { (opening : Base) (moment : ℤ) (tree : Option Tree) (front back taken : List Step) (lines : List RunLine) (acknowledged : List Commit)
        → CommitNothing taken → LineCommits opening moment tree (front ++ back) lines acknowledged
        → LineCommits opening moment tree (front ++ (taken ++ back)) lines acknowledged }
    ensures acknowledged { (front back taken : List Step) → CommitNothing taken → appends (front ++ (taken ++ back)) ≡ appends (front ++ back) }
{}

/// And what was answered, and what was asked of the folder.
pub fn what_stands_between_keeps_the_answers()
    ensures first { (opening : Base) (moment : ℤ) (front back taken : List Step) (before : Before) (lines : List RunLine)
        → CommitNothing taken → LineAnswers opening moment before (front ++ back) lines → LineAnswers opening moment before (front ++ (taken ++ back)) lines }
    ensures given { (opening : Base) (moment : ℤ) (front back taken : List Step) (before : Before) (lines : List RunLine) (old new : ObservedMail)
        → CommitNothing taken → GivenAlong opening moment (front ++ back) before lines old new
        → GivenAlong opening moment (front ++ (taken ++ back)) before lines old new }
{}

/// Steps that commit nothing leave where the session is, the commits of lines, and how many were acknowledged.
pub fn what_commits_nothing_keeps_the_commits()
    ensures stands { (opening : Base) (entry : Devices) (steps taken : List Step) (lines : List RunLine) (acknowledged : List Commit) (place : Place)
        → CommitNothing taken → StandsAt opening entry steps lines acknowledged place → StandsAt opening entry (steps ++ taken) lines acknowledged place }
    ensures commits { (opening : Base) (moment : ℤ) (tree : Option Tree) (steps taken : List Step) (lines : List RunLine) (acknowledged : List Commit)
        → CommitNothing taken → LineCommits opening moment tree steps lines acknowledged → LineCommits opening moment tree (steps ++ taken) lines acknowledged }
    ensures acknowledged { (steps taken : List Step) → CommitNothing taken → appends (steps ++ taken) ≡ appends steps }
{}

/// Later steps leave what was answered, and what was asked of the folder.
pub fn later_steps_keep_the_answers()
    ensures first { (opening : Base) (moment : ℤ) (steps taken : List Step) (before : Before) (lines : List RunLine)
        → LineAnswers opening moment before steps lines → LineAnswers opening moment before (steps ++ taken) lines }
    ensures others { (opening : Base) (moment : ℤ) (steps taken : List Step) (lines : List RunLine)
        → LaneAnswers opening moment steps lines → LaneAnswers opening moment (steps ++ taken) lines }
    ensures given { (opening : Base) (moment : ℤ) (steps taken : List Step) (before : Before) (lines : List RunLine) (old new : ObservedMail)
        → GivenAlong opening moment steps before lines old new → GivenAlong opening moment (steps ++ taken) before lines old new }
{}
