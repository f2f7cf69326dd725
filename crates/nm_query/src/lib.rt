//! The model: queries in the language of notmuch's command line. Any text has its tree, or the one refusal with its
//! place.
#![tactic(auto)]

mod faults;
mod group;
mod joined;
mod laws;
mod level;
mod lexeme;
mod nesting;
mod parser;
mod prefixes;
mod query;
mod query_error;
mod stack;
mod terms;
mod token;
mod token_laws;
mod tokens;
mod tree_reader;
mod values;

pub use laws::{
    a_name_in_quotes_is_a_term, a_printed_tree_is_read_back,
    a_text_is_read_as_the_grammar_reads_it, parentheses_change_nothing,
    tokens_without_a_fault_are_a_query, two_terms_of_a_kind_are_joined_by_or,
};
pub use parser::parse;
pub use query::Query;
pub use query_error::{QueryError, QueryKind};
pub use token_laws::{
    a_fault_of_structure_is_told_at_its_place, a_prefix_names_what_is_asked,
    a_refusal_is_told_at_its_cause, a_sign_is_read_at_the_start_of_a_token,
    a_text_in_quotes_is_asked_for_its_words, a_value_ends_where_its_sort_ends,
    an_operator_is_a_word_in_any_case, depth_ends_at_64_levels, white_space_parts_tokens,
};
