//! Why words are no command: `command` answers so, and `nm_log` makes its text of it.

use nm_base::{Text, UsageKind};
use thiserror::Error;

/// The word at fault, and what is wrong with it; the word is empty where one is wanting.
#[derive(Debug, Drop, Error)]
pub enum CommandError {
    #[error("usage")]
    Usage { word: Text, kind: UsageKind },
    #[error("no memory")]
    NoMemory,
}
