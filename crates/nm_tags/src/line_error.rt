//! Why lines of tag changes are refused; `batch_lines` answers it.

ghost use Rattle.std.specs.Prelude.{◌≡◌};

use nm_base::NoMemory;
use thiserror::Error;

/// What is wrong with a line.
#[derive(Clone, Copy, Debug)]
pub enum LineKind {
    /// It is not UTF-8.
    Utf8,
    /// A word with a sign has no tag after it.
    Tag,
    /// It has no query, or one that can't be read.
    Query,
    /// It has not the form of such a line.
    Form,
}

/// Why lines are refused.
#[derive(Clone, Copy, Debug, Error)]
pub enum LineError {
    #[error("line {line} is not of the form")]
    BadLine {
        /// Counted from 1, empty lines and comments too.
        line: u32,
        kind: LineKind,
    },
    #[error("no memory")]
    NoMemory,
}

impl From<NoMemory> for LineError {
    ghost use Rattle.nm_tags.specs.declared.line_error.LineError.TheVariants as faults;

    ghost from_gives = { λ _ e. e ≡ faults.NoMemory };

    fn from(_: NoMemory) -> LineError {
        LineError::NoMemory
    }
}
