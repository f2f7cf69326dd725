//! What every mail folder is to the code above: it is opened, lists, reads, renames, and counts its failures.
//! `nm_scan` and `nm_writer` call it.

ghost use Rattle.std.specs.Prelude.{◌≡◌, ℕ, List, Option, IfOk, IfSome};
ghost use Rattle.nm_maildir.specs.Observed.{KeepsMail, ObservedMail, OpensMail, after_read, after_rename};
ghost use Rattle.nm_maildir.specs.Order.{AreInOrder};
ghost use Rattle.nm_maildir.specs.Tree.{Tree, got_of, listing_of, renamed_of};

use crate::{Got, Listing, MailError, Renamed};
use nm_base::{Failed, MailPath, Text};

/// A folder of mail. Paths are below its root; the root itself is the empty text.
pub trait Maildir {
    /// What it holds and the paths that `read` was called with, in order, where they are known, and how often it has
    /// failed.
    ghost observed: { Self → ObservedMail };

    /// The names in a folder, in byte order without repeats. A folder that is not there has none.
    fn list(&mut self, dir: &Text) -> Result<Listing, MailError>
        ensures listed { IfOk result (λ listing. IfSome (observed self.old).tree (λ tree. listing ≡ listing_of tree dir.now)) }
        ensures order { IfOk result (λ listing. AreInOrder listing) }
        ensures keeps { KeepsMail (observed self.old) (observed self.new) result };

    /// The bytes of a file, where it has at most `max`.
    fn read(&mut self, path: &MailPath, max: u64) -> Result<Got, MailError>
        ensures got { IfOk result (λ got. IfSome (observed self.old).tree (λ tree. got ≡ got_of tree path.now max)) }
        ensures keeps { KeepsMail (after_read (observed self.old) path.now result) (observed self.new) result };

    /// Renames a file, where the target is not there yet.
    fn rename(&mut self, from: &MailPath, to: &MailPath) -> Result<Renamed, MailError>
        ensures renamed { IfOk result (λ renamed. IfSome (observed self.old).tree (λ tree. renamed ≡ renamed_of tree from.now to.now)) }
        ensures keeps { KeepsMail (after_rename (observed self.old) from.now to.now result) (observed self.new) result };

    /// Has names outlast a loss of power, where the folder is on a device: those of its own renames so far, and those of the files
    /// that came and went by other hands. Nothing that it tells changes.
    fn sync(&mut self, came: &[MailPath], went: &[MailPath]) -> Result<(), MailError>
        ensures keeps { KeepsMail (observed self.old) (observed self.new) result };

    /// How often it has failed, up to 2^64 - 1.
    fn faults(&self) -> u64
        ensures { result ≡ (observed self.now).faults };
}

/// A folder of mail that is opened by its path.
pub trait MailFolder: Maildir {
    /// The tree that is at a path, where it is known.
    ghost tree_at: { Self → List ℕ → Option Tree };

    /// Opens the folder at this path, which is its root from then on.
    fn open(&mut self, dir: &Text) -> Result<(), Failed>
        ensures { OpensMail (Self.observed self.old) (tree_at self.old dir.now) (Self.observed self.new) result };
}
