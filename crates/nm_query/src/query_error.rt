//! Why a text is no query: `parse` answers so, and `nm_log` makes its text of it.

use nm_base::Limit;
use thiserror::Error;

/// What is wrong with a query.
#[derive(Clone, Copy, Debug)]
pub enum QueryKind {
    /// A quoted text without its end.
    Quote,
    /// A parenthesis without its fellow.
    Paren,
    /// An operator or a `(` that lacks an operand.
    Operand,
    /// A prefix without a value.
    Value,
    /// A form that is not there.
    NotHere,
}

/// Why a text has no tree. A place is that of a byte of the text.
#[derive(Clone, Copy, Debug, Error)]
pub enum QueryError {
    #[error("bad query")]
    BadQuery { at: u32, kind: QueryKind },
    /// An end of a range that is no date.
    #[error("bad date")]
    BadDate { at: u32 },
    #[error("limit")]
    Limit(Limit),
    #[error("no memory")]
    NoMemory,
}
