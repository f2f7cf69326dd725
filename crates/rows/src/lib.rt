//! Tests: rows as data. The language of the tables that programs as `test_mail` run, the run of a table, and the
//! report on each row. A table is a text that a person who knows mail reads at once; `docs/ROWS.md` has the language.
#![tactic(auto)]

mod escapes;
mod lines;
mod paragraph;
mod report;
mod row;
mod row_error;
mod table;
mod values;

pub use escapes::{escaped, unescaped};
pub use lines::Lines;
pub use paragraph::{Paragraph, paragraphs};
pub use report::Report;
pub use row::{Row, RowLine, cut, number_of, read_row, signed_of, text_of};
pub use row_error::RowError;
pub use table::{Program, run_program, run_table};
pub use values::{id_of, named, path_of, tag_of, tags_of, value_of, words_of};
