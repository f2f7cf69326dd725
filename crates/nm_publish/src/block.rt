//! What `publication` and `seats` do where an answer comes that can't come: they block forever.

use std::sync::Wait;

/// Blocks forever.
pub fn block_forever<R: Wait>(rt: &R)
    ensures { ⊥ }
{
    for _ in rt.forever() {}
}
