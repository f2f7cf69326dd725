//! Folders and files in memory, found by their paths, for `StillTree`.

ghost use Rattle.std.specs.Bool.{OnFalse};
ghost use Rattle.std.specs.Prelude.{◌≡◌, [], true, None, Some, is_some, IfOk, IfSome, IsTrue, OnOk, OnErr};
ghost use Rattle.nm_maildir.specs.MemoryFiles.{IsIndex, Locates, place_of};
ghost use Rattle.nm_maildir.specs.Names.{HasNames};
ghost use Rattle.nm_maildir.specs.Order.{AreInOrder};
ghost use Rattle.nm_maildir.specs.Still.{are_distinct, paths_of};
ghost use Rattle.nm_maildir.specs.Tree.{bytes_at, got_from};

use crate::names::{list_of, names_of_dirs, names_of_files};
use crate::{Got, Listing, Renamed};
use nm_base::{Copies, MailPath, Many, NoMemory, Text};
use std::alloc::Global;
use std::collections::{BTreeMap, BTreeSet};

/// Folders, and files with their bytes, in memory. The places of the files are gathered at the first look-up,
/// the names in each folder at the first listing after a file was moved.
#[derive(Drop)]
pub(crate) struct MemoryFiles {
    alloc: Global,
    dirs: Many<Text>,
    files: Vec<(MailPath, Many<u8>)>,
    places: BTreeMap<MailPath, usize>,
    is_indexed: bool,
    dir_names: BTreeMap<Text, BTreeSet<Text>>,
    file_names: BTreeMap<Text, BTreeSet<Text>>,
    is_listed: bool,
    ghost distinct: { IsTrue (are_distinct (paths_of files.items)) },
    ghost indexed: { is_indexed ≡ true → IsIndex places files.items },
    ghost listed: { is_listed ≡ true → HasNames dir_names dirs × HasNames file_names (paths_of files.items) },
}

impl MemoryFiles {
    ghost use Rattle.nm_maildir.specs.MemoryTree.{tree_of};
    ghost use Rattle.nm_maildir.specs.Tree.{got_of, is_folder, listing_of, moved, renamed_of};
    ghost use Rattle.nm_maildir.specs.Observed.{tree_with};

    pub(crate) fn new(
        alloc: Global,
        dirs: Many<Text>,
        files: Many<(MailPath, Many<u8>)>,
    ) -> MemoryFiles
        requires { IsTrue (are_distinct (paths_of files)) }
        ensures { tree_of result ≡ record { dirs = dirs; files = files } }
    {
        MemoryFiles {
            alloc,
            dirs,
            files: files.into_vec(),
            places: BTreeMap::new(alloc),
            is_indexed: false,
            dir_names: BTreeMap::new(alloc),
            file_names: BTreeMap::new(alloc),
            is_listed: false,
        }
    }

    /// The same, where no path occurs twice.
    pub(crate) fn of(
        alloc: Global,
        dirs: Many<Text>,
        files: Many<(MailPath, Many<u8>)>,
    ) -> Result<Option<MemoryFiles>, NoMemory>
        ensures some { IfOk result (λ made. IfSome made (λ memory. tree_of memory ≡ record { dirs = dirs; files = files })) }
        ensures none { IfOk result (λ made. is_some made ≡ are_distinct (paths_of files)) }
    {
        let Some(places) = places_of(alloc, files.as_slice())? else {
            return Ok(None);
        };
        Ok(Some(MemoryFiles {
            alloc,
            dirs,
            files: files.into_vec(),
            places,
            is_indexed: true,
            dir_names: BTreeMap::new(alloc),
            file_names: BTreeMap::new(alloc),
            is_listed: false,
        }))
    }

    pub(crate) fn list(&mut self, dir: &Text) -> Result<Listing, NoMemory>
        ensures listed { IfOk result (λ listing. listing ≡ listing_of (tree_of self.old) dir.now) }
        ensures order { IfOk result (λ listing. AreInOrder listing) }
        ensures tree { tree_of self.new ≡ tree_of self.old }
    {
        if !self.has_folder(dir) {
            return Ok(no_names(self.alloc));
        }
        self.gather_names()?;
        let dirs = list_of(self.alloc, &self.dir_names, dir)?;
        let files = list_of(self.alloc, &self.file_names, dir)?;
        Ok(Listing { dirs, files })
    }

    /// Gathers the names in each folder, where that was not done since the last change.
    fn gather_names(&mut self) -> Result<(), NoMemory>
        ensures ok { OnOk result (self.new.is_listed ≡ true) }
        ensures tree { tree_of self.new ≡ tree_of self.old }
    {
        if !self.is_listed {
            let dir_names = names_of_dirs(self.alloc, self.dirs.as_slice())?;
            let file_names = names_of_files(self.alloc, self.files.as_slice())?;
            self.dir_names = dir_names;
            self.file_names = file_names;
            self.is_listed = true;
        }
        Ok(())
    }

    fn has_folder(&self, dir: &Text) -> bool
        ensures { result ≡ is_folder (tree_of self.now) dir.now }
    {
        dir.as_str().is_empty() || self.dirs.as_slice().contains(dir)
    }

    /// The bytes of a file, where it has at most `max`.
    pub(crate) fn read(&mut self, path: &MailPath, max: u64) -> Result<Got, NoMemory>
        ensures got { IfOk result (λ got. got ≡ got_of (tree_of self.old) path.now max) }
        ensures tree { tree_of self.new ≡ tree_of self.old }
    {
        self.index()?;
        match self.place(path) {
            None => Ok(Got::Missing),
            Some(at) => got(&self.files[at].1, max),
        }
    }

    /// Renames a file, where the target is not there yet.
    pub(crate) fn rename(&mut self, from: &MailPath, to: &MailPath) -> Result<Renamed, NoMemory>
        ensures renamed { IfOk result (λ renamed. renamed ≡ renamed_of (tree_of self.old) from.now to.now) }
        ensures tree { tree_of self.new ≡ tree_with (tree_of self.old) from.now to.now result }
    {
        self.index()?;
        let Some(at) = self.place(from) else {
            return Ok(Renamed::Missing);
        };
        if self.has_file(to) {
            return Ok(Renamed::Exists);
        }
        self.move_file(at, from, to)?;
        Ok(Renamed::Moved)
    }

    /// Gathers the places, where that was not done yet.
    fn index(&mut self) -> Result<(), NoMemory>
        ensures ok { OnOk result (self.new.is_indexed ≡ true) }
        ensures tree { tree_of self.new ≡ tree_of self.old }
    {
        if !self.is_indexed {
            let Some(places) = places_of(self.alloc, self.files.as_slice())? else {
                unreachable!()
            };
            self.places = places;
            self.is_indexed = true;
        }
        Ok(())
    }

    #[tactic(auto, using(crate::proofs::IndexLemmas::place_lemmas))]
    fn place(&self, path: &MailPath) -> Option<usize>
        requires { self.now.is_indexed ≡ true }
        ensures place { result ≡ place_of self.now.files.items path.now }
        ensures there { is_some result ≡ is_some (bytes_at self.now.files.items path.now) }
        ensures bytes { Locates self.now.files.items path.now result }
    {
        self.places.get(path).copied()
    }

    fn has_file(&self, path: &MailPath) -> bool
        requires { self.now.is_indexed ≡ true }
        ensures there { result ≡ is_some (bytes_at self.now.files.items path.now) }
        ensures missing { OnFalse result (place_of self.now.files.items path.now ≡ None) }
    {
        self.place(path).is_some()
    }

    /// Gives the file at the place of `from` the path `to`.
    fn move_file(&mut self, at: usize, from: &MailPath, to: &MailPath) -> Result<(), NoMemory>
        requires indexed { self.old.is_indexed ≡ true }
        requires found { place_of self.old.files.items from.now ≡ Some at }
        requires missing { place_of self.old.files.items to.now ≡ None }
        ensures ok { OnOk result (tree_of self.new ≡ moved (tree_of self.old) from.now to.now) }
        ensures err { OnErr result (tree_of self.new ≡ tree_of self.old) }
    {
        let path = to.copy()?;
        self.places.insert(to.copy()?, at)?;
        self.places.remove(from);
        self.is_listed = false;
        self.files[at].0 = path;
        Ok(())
    }
}

fn got(bytes: &Many<u8>, max: u64) -> Result<Got, NoMemory>
    ensures { IfOk result (λ got. got ≡ got_from max (Some bytes.now)) }
{
    if bytes.len() as u64 > max {
        return Ok(Got::TooLong);
    }
    let copied = bytes.copy()?;
    Ok(Got::Found(copied))
}

/// The place of each file by its path, where no path occurs twice.
fn places_of(
    alloc: Global,
    files: &[(MailPath, Many<u8>)],
) -> Result<Option<BTreeMap<MailPath, usize>>, NoMemory>
    ensures places { IfOk result (λ found. IfSome found (λ places. IsIndex places files.now)) }
    ensures distinct { IfOk result (λ found. is_some found ≡ are_distinct (paths_of files.now)) }
{
    let mut places = BTreeMap::new(alloc);
    'files: for (at, file) in files.iter().enumerate() {
        if places.insert(file.0.copy()?, at)?.is_some() {
            return Ok(None);
        }
    }
    Ok(Some(places))
}

/// A listing of a folder that holds nothing.
#[tactic(auto, using(crate::proofs::OrderLemmas::none_in_order))]
pub(crate) fn no_names(alloc: Global) -> Listing
    ensures names { result ≡ record { dirs = []; files = [] } }
    ensures order { AreInOrder result }
{
    Listing {
        dirs: Many::new(alloc),
        files: Many::new(alloc),
    }
}
