//! The bounds that a call may tell as passed, from `nm_query` to the lines of `nm_log`.

/// The bound that was passed.
#[derive(Clone, Copy, Debug)]
pub enum Limit {
    Files,
    Dirs,
    Depth,
    IndexBytes,
    CommitBytes,
    InputBytes,
    Lines,
    Commits,
    QueryBytes,
    QueryDepth,
    ShowBytes,
    Numbers,
}
