//! Documents with their words, of which a `Segment` is built.

use nm_base::{Copies, FieldWords, Many, NoMemory};
use nm_shared::Shared;

/// A document by its number, with its lists of words, which are shared with whoever has them too.
#[derive(Drop)]
pub struct DocWords {
    pub doc: u32,
    pub lists: Shared<Many<FieldWords>>,
}

/// The copy shares the lists.
impl Copies for DocWords {
    fn copy(&self) -> Result<DocWords, NoMemory> {
        Ok(DocWords {
            doc: self.doc,
            lists: self.lists.copy()?,
        })
    }
}
