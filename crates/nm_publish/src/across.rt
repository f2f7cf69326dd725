//! A proof that a reader may go to another thread, with what it learns. No code calls it; readers in threads of their
//! own rest on it.

use crate::{Reader, Shown};

fn may_go<T: Send>(_value: &T) {}

/// A reader may go to another thread, and so may what it learns there.
pub fn a_reader_may_go(reader: &Reader, shown: &Shown) {
    may_go(reader);
    may_go(shown);
}
