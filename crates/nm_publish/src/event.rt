//! What is in the `list` of what was published.

use nm_commit::Commit;
use nm_model_index::Base;

/// The list begins with the index at the opening, and goes on with commits. It is in the proofs alone, so no value of
/// this type is made.
pub enum Event {
    Opens(Base),
    Adds(Commit),
}
