//! Commands and replies: what a session reads and says. What each line of a script asks for, the log of what was done, the
//! text of each reply, and how the log is printed.
#![tactic(auto)]

mod crew;
mod header;
mod laws;
mod line_parser;
mod log;
mod outcome;
mod print;
mod refusal;
mod replies;

pub use crew::Crew;
pub use laws::{
    lines_are_read_as_the_grammar_says, other_lanes_search_count_and_dump,
    single_commands_are_read_as_the_grammar_says,
};
pub use line_parser::{ParsedLine, parse_line, parse_single, reads_input};
pub use log::{Done, LineLog, Said, SessionLog, Setting};
pub use outcome::Outcome;
pub use print::{print_lines, print_replies, print_text, print_usage};
pub use refusal::{Refusal, print_refusal, refused_status};
pub use replies::{change_reply, is_well, line_status, new_text, refusal_line, usage_line};
