//! The flags of a mail, as maildir(5) has them: `parse_name` reads them, and `with_flags` writes them.

/// The flags of a mail.
#[derive(Clone, Copy)]
pub struct Flags {
    /// D: a draft of the user's.
    pub draft: bool,
    /// F: marked for attention.
    pub flagged: bool,
    /// P: resent, forwarded or bounced.
    pub passed: bool,
    /// R: replied to.
    pub replied: bool,
    /// S: seen.
    pub seen: bool,
    /// T: to be removed later.
    pub trashed: bool,
}
