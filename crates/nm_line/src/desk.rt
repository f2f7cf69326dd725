//! What lane 0 works on, for `lane_zero` and what it calls.

use nm_writer::Writer;

/// The index with its writer, the mail folder, and the disk that holds the index.
#[derive(Drop)]
pub struct Desk<'w, 'm, 'd, M, D> {
    pub writer: &'w mut Writer,
    pub mail: &'m mut M,
    pub disk: &'d mut D,
}
