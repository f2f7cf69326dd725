//! Searching: a segment, the words of a list of documents, found by word and field or by document. A contract sees it as
//! the documents.
#![tactic(auto)]

mod all_words;
mod dictionary;
mod doc_lists;
mod doc_places;
mod doc_words;
mod fields;
mod gather;
mod key;
mod laws;
mod list_words;
mod live_docs;
mod merged_index;
mod merged_segment;
mod part;
mod pieces;
mod postings;
mod segment;
mod starts;

pub use doc_lists::DocLists;
pub use doc_words::DocWords;
pub use laws::{
    hits_are_in_order, hits_are_where_the_word_stands, hits_of_more_documents_follow,
    words_are_those_that_stand,
};
pub use merged_segment::{join, merge};
pub use postings::Postings;
pub use segment::{Segment, build};
