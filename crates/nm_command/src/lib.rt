//! Commands and replies: the words of a command line to what they ask for, or to the one refusal with its word and kind.
#![tactic(auto)]

mod command_error;
mod command_parser;
mod laws;
mod leading_options;
mod number;
mod options;
mod request;
mod settings;
mod table;
mod tag_words;

pub use command_error::CommandError;
pub use command_parser::command;
pub use laws::{
    a_query_keeps_its_words, a_request_that_is_written_out_is_read_back, an_option_stands_once,
    leading_options_are_read_as_written, leading_words_are_refused, options_may_change_places,
    the_first_value_is_the_default, words_are_read_as_the_grammar_says, words_have_one_answer,
};
pub use leading_options::{HeadError, Leading, head};
pub use request::Request;
pub use table::{CommandName, command_named};
