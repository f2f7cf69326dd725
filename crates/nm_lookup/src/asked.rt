//! What `documents` looks for.

use nm_base::{Field, WordList};

/// Words that are asked for: one after the other in one list, the last whole, or by its front where `starts` is set. The list is of the
/// field, or of any where there is none.
#[derive(Drop)]
pub struct AskedWords<'a> {
    pub field: Option<Field>,
    pub words: &'a WordList,
    pub starts: bool,
}
