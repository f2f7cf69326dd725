//! The names in one folder, from the paths of a tree: `memory_files` and `folder_io` make listings with it.

ghost use Rattle.std.specs.Prelude.{◌≡◌, ◌==◌, ◌-◌, not, length, IfOk, OnOk};
ghost use Rattle.std.specs.List.{suffix_len};
ghost use Rattle.std.specs.Str.{IsCharBoundary};
ghost use Rattle.nm_base.specs.Order.{IsSorted};
ghost use Rattle.nm_maildir.specs.Names.{AddsPath, DropsFolder, HasNames, names_at};
ghost use Rattle.nm_maildir.specs.Still.{paths_of};
ghost use Rattle.nm_maildir.specs.Tree.{folder_of, name_of};

use nm_base::{MailPath, Many, NoMemory, Text};
use std::alloc::Global;
use std::collections::{BTreeMap, BTreeSet};

/// The names of the folders that are in each folder.
pub(crate) fn names_of_dirs(
    alloc: Global,
    dirs: &[Text],
) -> Result<BTreeMap<Text, BTreeSet<Text>>, NoMemory>
    ensures { IfOk result (λ names. HasNames names dirs.now) }
{
    let mut names = BTreeMap::new(alloc);
    'dirs: for dir in dirs {
        add_path(alloc, &mut names, dir.as_str())?;
    }
    Ok(names)
}

/// The names of the files that are in each folder.
pub(crate) fn names_of_files(
    alloc: Global,
    files: &[(MailPath, Many<u8>)],
) -> Result<BTreeMap<Text, BTreeSet<Text>>, NoMemory>
    ensures { IfOk result (λ names. HasNames names (paths_of files.now)) }
{
    let mut names = BTreeMap::new(alloc);
    'files: for file in files {
        add_path(alloc, &mut names, file.0.text().as_str())?;
    }
    Ok(names)
}

/// The names of one folder, as a list.
#[tactic(auto, using(crate::proofs::OrderLemmas::none_in_order))]
pub(crate) fn list_of(
    alloc: Global,
    names: &BTreeMap<Text, BTreeSet<Text>>,
    folder: &Text,
) -> Result<Many<Text>, NoMemory>
    ensures names { IfOk result (λ list. list ≡ names_at names.now folder.now) }
    ensures order { IfOk result (λ list. IsSorted list) }
{
    let Some(found) = names.get(folder) else {
        return Ok(Many::new(alloc));
    };
    let copied = copy_of(found)?;
    into_list(alloc, copied)
}

fn copy_of(names: &BTreeSet<Text>) -> Result<BTreeSet<Text>, NoMemory>
    ensures { IfOk result (λ copied. copied.keys ≡ names.now.keys) }
{
    Ok(names.clone()?)
}

/// Adds the name of `path` to those of its folder.
fn add_path(
    alloc: Global,
    names: &mut BTreeMap<Text, BTreeSet<Text>>,
    path: &str,
) -> Result<(), NoMemory>
    ensures { OnOk result (AddsPath names.old names.new path.now) }
{
    let (folder, name) = split_path(path);
    let folder = Text::of(alloc, folder)?;
    let mut found = take_names(alloc, names, &folder);
    found.insert(Text::of(alloc, name)?)?;
    names.insert(folder, found)?;
    Ok(())
}

/// Takes the names of a folder out of the map.
fn take_names(
    alloc: Global,
    names: &mut BTreeMap<Text, BTreeSet<Text>>,
    folder: &Text,
) -> BTreeSet<Text>
    ensures taken { result.keys ≡ names_at names.old folder.now }
    ensures dropped { DropsFolder names.old names.new folder.now }
{
    let Some(found) = names.remove(folder) else {
        return BTreeSet::new(alloc);
    };
    found
}

/// The folder of a path and its name.
fn split_path(path: &str) -> (&str, &str)
    ensures folder { result.0.now ≡ folder_of path.now }
    ensures name { result.1.now ≡ name_of path.now }
{
    let start = name_start(path);
    let (_, name) = path.split_at(start);
    let (folder, _) = path.split_at(start.saturating_sub(1));
    (folder, name)
}

/// Where the last component begins; the byte before it is the `/` at which its folder ends.
fn name_start(path: &str) -> usize
    ensures start { result ≡ length path.now - suffix_len (λ b. not (b == 47)) path.now }
    ensures name { IsCharBoundary path.now result }
    ensures folder { IsCharBoundary path.now (result - 1) }
{
    let bytes = path.as_bytes();
    let mut start = bytes.len();
    'back: while start > 0 {
        if bytes[start - 1] == b'/' {
            return start;
        }
        start -= 1;
    }
    0
}

/// The names as a list, which is in order as the set is.
pub(crate) fn into_list(alloc: Global, names: BTreeSet<Text>) -> Result<Many<Text>, NoMemory>
    ensures names { IfOk result (λ list. list ≡ names.keys) }
    ensures order { IfOk result (λ list. IsSorted list) }
{
    let list: Vec<Text> = names.into_iter().collect(alloc)?;
    Ok(Many::from_vec(list))
}
