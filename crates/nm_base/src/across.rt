//! A proof that a text may go to other threads and be read by several at once. No code calls it; snapshots rest on it.

use crate::Text;

fn may_cross<T: Send + Sync>(_value: &T) {}

/// A text may be shared among threads.
pub fn text_may_cross(text: &Text) {
    may_cross(text);
}
