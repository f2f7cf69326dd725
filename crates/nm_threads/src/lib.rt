//! The model: which messages form a thread, and by which number it is named. Labels follow the rows of ids as mail
//! comes and goes, and always are those of the plain definition.
#![tactic(auto)]

mod dead;
mod entries;
mod labels;
mod laws;
mod maps;
mod members;
mod numbering;
mod rebuild;
mod removal;
mod rows;
mod thread_merge;

pub use entries::Entries;
pub use labels::Labels;
pub use laws::{
    a_row_joins_the_threads_of_its_ids, a_thread_has_one_name, labels_know_no_order_of_rows,
    numbers_rise_by_at_most_one_an_id, same_is_an_equivalence, same_is_what_is_computed,
    the_name_is_the_least_number, the_order_of_rows_is_nothing,
    the_potential_of_n_ids_is_at_most_n_log_n,
};
