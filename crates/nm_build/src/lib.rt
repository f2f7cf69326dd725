//! Committing and publishing: a segment built by several workers, each from a part of the documents. What they built is
//! joined two by two.
#![tactic(auto)]

mod cut;
mod docs_part;
mod pairs;
mod segment_pair;
mod workers;

pub use workers::build_by_workers;
