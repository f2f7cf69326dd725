//! The laws on which the turns of a session rest, in two; `phases` goes on by them. No code runs.

ghost use Rattle.nm_session.specs.TurnLaws.{FirstLaws, TurnLaws};

use nm_history::{
    a_barrier_keeps_the_machine_run, a_lane_read_commits_nothing, a_lane_read_keeps_the_answers,
    a_lane_read_keeps_the_machine_run, a_line_more_keeps_the_answers, a_line_more_keeps_the_clocks,
    a_line_more_keeps_the_commits, a_line_more_keeps_the_given, a_line_more_keeps_the_machine_run,
    a_line_more_keeps_where_it_stands, later_steps_keep_the_answers, no_line_is_answered,
    no_line_makes_no_commit, no_line_stands_at_the_opening, no_step_is_a_run_of_the_machine,
    nothing_is_given_to_no_line, what_commits_nothing_keeps_the_commits,
    what_stands_between_keeps_the_answers, what_stands_between_keeps_the_commits,
};
use nm_phase::{a_line_keeps_the_writer_even, a_line_replies_once, turns_leave_the_other_places};

/// Those before the first line.
pub(crate) fn first_laws()
    ensures { FirstLaws }
{
    no_line_stands_at_the_opening();
    no_step_is_a_run_of_the_machine();
    no_line_makes_no_commit();
    no_line_is_answered();
    nothing_is_given_to_no_line();
}

/// Those of a line more, of one more read, and of the end of a phase.
pub(crate) fn turn_laws()
    ensures { TurnLaws }
{
    a_line_more_keeps_where_it_stands();
    a_line_more_keeps_the_machine_run();
    a_line_more_keeps_the_commits();
    a_line_more_keeps_the_answers();
    a_line_more_keeps_the_given();
    a_line_more_keeps_the_clocks();
    a_lane_read_keeps_the_machine_run();
    a_lane_read_keeps_the_answers();
    a_lane_read_commits_nothing();
    a_barrier_keeps_the_machine_run();
    what_commits_nothing_keeps_the_commits();
    what_stands_between_keeps_the_commits();
    what_stands_between_keeps_the_answers();
    later_steps_keep_the_answers();
    turns_leave_the_other_places();
    a_line_keeps_the_writer_even();
    a_line_replies_once();
}
