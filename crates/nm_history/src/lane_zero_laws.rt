//! The statements of a session hold before its first line, and a line more of lane 0 keeps them. These functions run no code:
//! their clauses are the laws, which the loop of `nm_session` calls.

ghost use Rattle.std.specs.Prelude.{◌≡◌, ◌||◌, ℕ, ℤ, true, false, List, [], ◌∷◌, ◌++◌, None, length};
ghost use Rattle.nm_base.specs.Limits.{max_mail_bytes};
ghost use Rattle.nm_commit.specs.declared.change.Commit.{Commit};
ghost use Rattle.nm_model_index.specs.declared.base.Base.{Base};
ghost use Rattle.nm_model_machine.specs.declared.step.Step.{Step};
ghost use Rattle.nm_history.specs.Call.{Devices};
ghost use Rattle.nm_history.specs.CrashPrefix.{appends};
ghost use Rattle.nm_history.specs.Given.{GivenAlong};
ghost use Rattle.nm_history.specs.LineAnswers.{LineAnswers};
ghost use Rattle.nm_history.specs.LineCommits.{LineCommits};
ghost use Rattle.nm_history.specs.LineResult.{IsLineResult, Place, StandsAt};
ghost use Rattle.nm_history.specs.Lines.{RunLine, at_first, lane_zero_lines};
ghost use Rattle.nm_history.specs.MachineRun.{MachineRun};
ghost use Rattle.nm_history.specs.PrintedOut.{printed_by};
ghost use Rattle.nm_history.specs.Status.{any_is_out_of_memory, fault_of, fault_or, first_fault, is_out_of_memory};
ghost use Rattle.nm_log.specs.Replies.{printed_line, reply_of};
ghost use Rattle.nm_log.specs.declared.log.LineLog.{LineLog};

/// Before the first line nothing is begun or acknowledged, and the opening index is published and shown.
pub fn no_line_stands_at_the_opening()
    ensures { (opening : Base) (entry : Devices) (place : Place) → place.writer.published.opening ≡ opening
        → place.writer.published.commits ≡ [] → place.writer.shown ≡ opening → place.writer.begun ≡ []
        → place.writer.acked ≡ [] → place.writer.closed ≡ None → place.mail ≡ entry.mail → place.disk_faults ≡ entry.disk.faults
        → place.left ≡ max_mail_bytes
        → StandsAt opening entry [] [] [] place }
{}

/// No step is a run of the machine.
pub fn no_step_is_a_run_of_the_machine()
    ensures { (opening : Base) (moment : ℤ) (entry : Devices) → MachineRun opening moment (at_first opening entry) [] [] [] 0 }
{}

/// Where no line was run there is no commit.
pub fn no_line_makes_no_commit()
    ensures { (opening : Base) (moment : ℤ) (entry : Devices) → LineCommits opening moment entry.mail.tree [] [] [] }
{}

/// Where no line was run there is no answer.
pub fn no_line_is_answered()
    ensures { (opening : Base) (moment : ℤ) (entry : Devices) → LineAnswers opening moment (at_first opening entry) [] [] }
{}

/// And nothing was asked of the mail folder.
pub fn nothing_is_given_to_no_line()
    ensures { (opening : Base) (moment : ℤ) (entry : Devices) → GivenAlong opening moment [] (at_first opening entry) [] entry.mail entry.mail }
{}

/// After a line more the session is where the line left it; the commits that it made are acknowledged.
pub fn a_line_more_keeps_where_it_stands()
    ensures { (opening : Base) (moment : ℤ) (phase : ℕ) (entry : Devices) (steps taken : List Step) (lines : List RunLine) (acknowledged : List Commit)
        (old new : Place) (ran : RunLine) → StandsAt opening entry steps lines acknowledged old
        → (result : IsLineResult moment phase old ran taken new)
        → StandsAt opening entry (steps ++ taken) (lines ++ ran ∷ []) (acknowledged ++ result.made) new }
{}

/// The steps of a line more of lane 0 go on with the run of the machine.
pub fn a_line_more_keeps_the_machine_run()
    ensures { (opening : Base) (moment : ℤ) (phase : ℕ) (entry : Devices) (steps taken : List Step) (lines : List RunLine) (acknowledged : List Commit)
        (old new : Place) (ran : RunLine) → StandsAt opening entry steps (lane_zero_lines lines) acknowledged old
        → (result : IsLineResult moment phase old ran taken new)
        → MachineRun opening moment (at_first opening entry) steps lines acknowledged phase
        → MachineRun opening moment (at_first opening entry) (steps ++ taken) (lines ++ ran ∷ []) (acknowledged ++ result.made) phase }
{}

/// The commits of a line more are those that its outcome says.
pub fn a_line_more_keeps_the_commits()
    ensures { (opening : Base) (moment : ℤ) (phase : ℕ) (entry : Devices) (steps taken : List Step) (lines : List RunLine) (acknowledged : List Commit)
        (old new : Place) (ran : RunLine) → StandsAt opening entry steps lines acknowledged old
        → (result : IsLineResult moment phase old ran taken new)
        → LineCommits opening moment entry.mail.tree steps lines acknowledged
        → LineCommits opening moment entry.mail.tree (steps ++ taken) (lines ++ ran ∷ []) (acknowledged ++ result.made) }
{}

/// A line more is answered on the index before it and on its own.
pub fn a_line_more_keeps_the_answers()
    ensures { (opening : Base) (moment : ℤ) (phase : ℕ) (entry : Devices) (steps taken : List Step) (lines : List RunLine) (acknowledged : List Commit)
        (old new : Place) (ran : RunLine) → StandsAt opening entry steps lines acknowledged old → IsLineResult moment phase old ran taken new
        → LineAnswers opening moment (at_first opening entry) steps lines
        → LineAnswers opening moment (at_first opening entry) (steps ++ taken) (lines ++ ran ∷ []) }
{}

/// A line more asks the mail folder for what it needs.
pub fn a_line_more_keeps_the_given()
    ensures { (opening : Base) (moment : ℤ) (phase : ℕ) (entry : Devices) (steps taken : List Step) (lines : List RunLine) (acknowledged : List Commit)
        (old new : Place) (ran : RunLine) → StandsAt opening entry steps lines acknowledged old → IsLineResult moment phase old ran taken new
        → GivenAlong opening moment steps (at_first opening entry) lines entry.mail old.mail
        → GivenAlong opening moment (steps ++ taken) (at_first opening entry) (lines ++ ran ∷ []) entry.mail new.mail }
{}

/// What is printed of a line more is what was printed, and then that line: of a script its header and its reply, and alone its reply.
pub fn a_line_more_is_printed_last()
    ensures script { (logs : List LineLog) (log : LineLog) → printed_by true (logs ++ log ∷ []) ≡ printed_by true logs ++ printed_line log }
    ensures alone { (logs : List LineLog) (log : LineLog) → printed_by false (logs ++ log ∷ []) ≡ printed_by false logs ++ reply_of log }
{}

/// A line more leaves the first fault of a device what it was, and where there was none that is its own; memory ran out where it had, or
/// where it does in this line.
pub fn a_line_more_keeps_the_first_fault()
    ensures fault { (logs : List LineLog) (log : LineLog) → first_fault (logs ++ log ∷ []) ≡ fault_or (first_fault logs) (fault_of log.outcome) }
    ensures memory { (logs : List LineLog) (log : LineLog) → any_is_out_of_memory (logs ++ log ∷ []) ≡ (any_is_out_of_memory logs || is_out_of_memory log.outcome) }
{}

/// Each commit that a line more acknowledges has its clock.
pub fn a_line_more_keeps_the_clocks()
    ensures { (opening : Base) (moment : ℤ) (phase : ℕ) (entry : Devices) (steps taken : List Step) (lines : List RunLine) (acknowledged : List Commit)
        (old new : Place) (ran : RunLine) → StandsAt opening entry steps lines acknowledged old → IsLineResult moment phase old ran taken new
        → length old.writer.acked ≡ appends steps → length new.writer.acked ≡ appends (steps ++ taken) }
{}
