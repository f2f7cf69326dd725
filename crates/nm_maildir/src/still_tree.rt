//! A tree of mail in memory, whose content is known, for `test_session` and the drills of `nm_drill`.

ghost use Rattle.std.specs.Prelude.{◌≡◌, is_err, is_some, IfOk, IfSome, IsOk, IsTrue};
ghost use Rattle.nm_faults.specs.Calls.{counted, is_next_listed};
ghost use Rattle.nm_maildir.specs.Observed.{KeepsMail, OpensMail, after_read, after_rename};
ghost use Rattle.nm_maildir.specs.Order.{AreInOrder};
ghost use Rattle.nm_maildir.specs.Still.{CountsCall, are_distinct, observed_still, paths_of, still_of};
ghost use Rattle.nm_maildir.specs.Tree.{got_of, listing_of, renamed_of};

use crate::memory_files::MemoryFiles;
use crate::{Got, Listing, MailError, MailFolder, Maildir, Renamed};
use nm_base::{Copies, Failed, MailPath, Many, NoMemory, Text};
use nm_faults::Calls;
use std::alloc::Global;
use std::marker::Model;

/// A folder of mail in memory. Its tree and the paths read are known, and it fails at the listed calls and at no other.
#[derive(Drop)]
pub struct StillTree {
    files: MemoryFiles,
    reads: Many<MailPath>,
    calls: Calls,
}

impl Model for StillTree {
    ghost use Rattle.nm_maildir.specs.MemoryTree.{tree_of};
    ghost use Rattle.nm_maildir.specs.Still.{Still};

    ghost Value = { Still };

    ghost view = { λ s. record { tree = tree_of s.files; reads = s.reads; calls = s.calls } };
}

impl StillTree {
    /// `failing` are the numbers of the calls that are to fail, the first call being 1; `faults` is not counted.
    pub fn new(
        alloc: Global,
        dirs: Many<Text>,
        files: Many<(MailPath, Many<u8>)>,
        failing: Many<u64>,
    ) -> StillTree
        requires { IsTrue (are_distinct (paths_of files)) }
        ensures { result ≡ still_of dirs files failing }
    {
        StillTree {
            files: MemoryFiles::new(alloc, dirs, files),
            reads: Many::new(alloc),
            calls: Calls::new(failing),
        }
    }

    /// The same, where no path occurs twice.
    pub fn of(
        alloc: Global,
        dirs: Many<Text>,
        files: Many<(MailPath, Many<u8>)>,
        failing: Many<u64>,
    ) -> Result<Option<StillTree>, NoMemory>
        ensures some { IfOk result (λ made. IfSome made (λ tree. tree ≡ still_of dirs files failing)) }
        ensures none { IfOk result (λ made. is_some made ≡ are_distinct (paths_of files)) }
    {
        let Some(files) = MemoryFiles::of(alloc, dirs, files)? else {
            return Ok(None);
        };
        Ok(Some(StillTree {
            files,
            reads: Many::new(alloc),
            calls: Calls::new(failing),
        }))
    }
}

impl Maildir for StillTree {
    ghost observed = { observed_still };

    fn list(&mut self, dir: &Text) -> Result<Listing, MailError>
        ensures listed { IfOk result (λ listing. listing ≡ listing_of self.old.tree dir.now) }
        ensures order { IfOk result (λ listing. AreInOrder listing) }
        ensures keeps { KeepsMail (observed_still self.old) (observed_still self.new) result }
        ensures counted { CountsCall self.old self.new result }
    {
        if self.calls.is_next_listed() {
            self.calls.count();
            return Err(MailError::Failed);
        }
        let listing = self.files.list(dir)?;
        self.calls.count();
        Ok(listing)
    }

    fn read(&mut self, path: &MailPath, max: u64) -> Result<Got, MailError>
        ensures got { IfOk result (λ got. got ≡ got_of self.old.tree path.now max) }
        ensures keeps { KeepsMail (after_read (observed_still self.old) path.now result) (observed_still self.new) result }
        ensures counted { CountsCall self.old self.new result }
    {
        let noted = path.copy()?;
        if self.calls.is_next_listed() {
            self.reads.push(noted)?;
            self.calls.count();
            return Err(MailError::Failed);
        }
        let got = self.files.read(path, max)?;
        self.reads.push(noted)?;
        self.calls.count();
        Ok(got)
    }

    fn rename(&mut self, from: &MailPath, to: &MailPath) -> Result<Renamed, MailError>
        ensures renamed { IfOk result (λ renamed. renamed ≡ renamed_of self.old.tree from.now to.now) }
        ensures keeps { KeepsMail (after_rename (observed_still self.old) from.now to.now result) (observed_still self.new) result }
        ensures counted { CountsCall self.old self.new result }
    {
        if self.calls.is_next_listed() {
            self.calls.count();
            return Err(MailError::Failed);
        }
        let renamed = self.files.rename(from, to)?;
        self.calls.count();
        Ok(renamed)
    }

    /// What is in memory has no device, so this is no call that is counted.
    fn sync(&mut self, _: &[MailPath], _: &[MailPath]) -> Result<(), MailError>
        ensures keeps { KeepsMail (observed_still self.old) (observed_still self.new) result }
        ensures ok { IsOk result }
        ensures same { self.new ≡ self.old }
    {
        Ok(())
    }

    fn faults(&self) -> u64 {
        self.calls.faults()
    }
}

impl MailFolder for StillTree {
    /// The tree in memory is at each path.
    ghost tree_at = { λ s dir. (observed_still s).tree };

    /// Counts a call.
    fn open(&mut self, _: &Text) -> Result<(), Failed>
        ensures opens { OpensMail (observed_still self.old) (observed_still self.old).tree (observed_still self.new) result }
        ensures counted { self.new ≡ record self.old { calls = counted self.old.calls } }
        ensures listed { is_err result ≡ is_next_listed self.old.calls }
    {
        if self.calls.count() {
            return Err(Failed);
        }
        Ok(())
    }
}
