//! Trees of mail in memory that follow one another, as where another program changes the folder between two calls,
//! for `test_session`.

ghost use Rattle.std.specs.Prelude.{◌≡◌, ◌<◌, ◌∷◌, length, IfOk, IsOk};
ghost use Rattle.nm_faults.specs.Faults.{Counts};
ghost use Rattle.nm_maildir.specs.Observed.{KeepsMail, after_read, after_rename, is_mail_fault, tree_with};
ghost use Rattle.nm_maildir.specs.Order.{AreInOrder};
ghost use Rattle.nm_maildir.specs.Shift.{Shifts, observed_shift, trees_of};
ghost use Rattle.nm_maildir.specs.Tree.{got_of, listing_of, renamed_of};

use crate::{Got, Listing, MailError, Maildir, Renamed, StillTree};
use nm_base::{MailPath, Many, Text};
use nm_faults::Faults;
use std::marker::Model;

/// A folder of mail in memory of which each call finds the next tree; the last one stays. Neither what it holds nor what was
/// read is known.
#[derive(Drop)]
pub struct ShiftTree {
    tree: StillTree,
    /// The trees that come after it, the next one last.
    later: Vec<StillTree>,
    faults: Faults,
}

impl Model for ShiftTree {
    ghost use Rattle.std.specs.Prelude.{reverse};
    ghost use Rattle.nm_maildir.specs.Shift.{Shift, trees_of};

    ghost Value = { Shift };

    ghost view = { λ s. record { tree = s.tree.tree; later = trees_of (reverse s.later.items); faults = s.faults } };
}

impl ShiftTree {
    /// The first call finds the first of the trees.
    pub fn new(trees: Many<StillTree>) -> ShiftTree
        requires { 0 < length trees }
        ensures trees { result.tree ∷ result.later ≡ trees_of trees }
        ensures faults { result.faults ≡ 0 }
    {
        let mut later = trees.into_vec();
        later.reverse();
        let Some(tree) = later.pop() else {
            unreachable!()
        };
        ShiftTree {
            tree,
            later,
            faults: Faults::new(),
        }
    }

    /// The next tree takes the place of this one, where one is left.
    fn shift(&mut self)
        ensures shifts { Shifts self.old self.old.tree self.new }
        ensures faults { self.new.faults ≡ self.old.faults }
    {
        if let Some(next) = self.later.pop() {
            self.tree = next;
        }
    }

    /// Counts a failure of the tree; running out of memory is none.
    fn count(&mut self, error: MailError) -> MailError
        ensures same { result ≡ error }
        ensures faults { Counts (is_mail_fault error) self.old.faults self.new.faults }
        ensures tree { self.new.tree ≡ self.old.tree }
        ensures later { self.new.later ≡ self.old.later }
    {
        match error {
            MailError::Failed => self.faults.add(),
            MailError::NoMemory => {}
        }
        error
    }
}

impl Maildir for ShiftTree {
    ghost observed = { observed_shift };

    fn list(&mut self, dir: &Text) -> Result<Listing, MailError>
        ensures listed { IfOk result (λ listing. listing ≡ listing_of self.old.tree dir.now) }
        ensures order { IfOk result (λ listing. AreInOrder listing) }
        ensures keeps { KeepsMail (observed_shift self.old) (observed_shift self.new) result }
        ensures shifts { Shifts self.old self.old.tree self.new }
    {
        let result = self.tree.list(dir);
        self.shift();
        match result {
            Ok(listing) => Ok(listing),
            Err(error) => Err(self.count(error)),
        }
    }

    fn read(&mut self, path: &MailPath, max: u64) -> Result<Got, MailError>
        ensures got { IfOk result (λ got. got ≡ got_of self.old.tree path.now max) }
        ensures keeps { KeepsMail (after_read (observed_shift self.old) path.now result) (observed_shift self.new) result }
        ensures shifts { Shifts self.old self.old.tree self.new }
    {
        let result = self.tree.read(path, max);
        self.shift();
        match result {
            Ok(got) => Ok(got),
            Err(error) => Err(self.count(error)),
        }
    }

    fn rename(&mut self, from: &MailPath, to: &MailPath) -> Result<Renamed, MailError>
        ensures renamed { IfOk result (λ renamed. renamed ≡ renamed_of self.old.tree from.now to.now) }
        ensures keeps { KeepsMail (after_rename (observed_shift self.old) from.now to.now result) (observed_shift self.new) result }
        ensures shifts { Shifts self.old (tree_with self.old.tree from.now to.now result) self.new }
    {
        let result = self.tree.rename(from, to);
        self.shift();
        match result {
            Ok(renamed) => Ok(renamed),
            Err(error) => Err(self.count(error)),
        }
    }

    /// It has no device, so it finds no next tree.
    fn sync(&mut self, _: &[MailPath], _: &[MailPath]) -> Result<(), MailError>
        ensures keeps { KeepsMail (observed_shift self.old) (observed_shift self.new) result }
        ensures ok { IsOk result }
        ensures same { self.new ≡ self.old }
    {
        Ok(())
    }

    fn faults(&self) -> u64 {
        self.faults.count()
    }
}
