//! The laws on which a call rests that opens no index, in one; `devices` ends by them. No code runs.

ghost use Rattle.nm_top.specs.RefusalLaws.{RefusalLaws};

use nm_history::{
    a_refused_line_is_a_history, a_refused_opening_keeps_the_index, no_line_is_answered,
    no_line_makes_no_commit, no_step_is_a_run_of_the_machine, nothing_is_given_to_no_line,
};

pub(crate) fn refusal_laws()
    ensures { RefusalLaws }
{
    no_step_is_a_run_of_the_machine();
    no_line_makes_no_commit();
    no_line_is_answered();
    nothing_is_given_to_no_line();
    a_refused_opening_keeps_the_index();
    a_refused_line_is_a_history();
}
