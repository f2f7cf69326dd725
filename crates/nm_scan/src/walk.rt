//! The walk through a tree of Maildirs, with which `new` begins, for `nm_sync`. A listing is dropped once its names are
//! taken; of a folder that is walked through the names of files go before its mail is listed.

ghost use Rattle.std.specs.Prelude.{IsTrue, ◌≡◌, ◌-◌, ◌<◌, ◌≤◌, ◌++◌, ◌∷◌, [], false, IfErr, IfOk, IfSome, OnErr, OnOk, filter, map, Ok, Err, reverse};
ghost use Rattle.nm_base.specs.Limits.{max_folders};
ghost use Rattle.nm_base.specs.Order.{has_text};
ghost use Rattle.nm_base.specs.declared.limit.Limit.{Limit};
ghost use Rattle.nm_faults.specs.Faults.{HasCauseOf};
ghost use Rattle.nm_maildir.specs.Observed.{KeepsMail};
ghost use Rattle.nm_maildir.specs.Tree.{listing_of};
ghost use Rattle.nm_scan.specs.Walk.{Walks, counts, file, folder_inside, inside, is_scan_fault, is_walk_error, is_walked, mail_met, met_in, part_met, paths_in, scanned, to_come, walked, with_folder};

use crate::ScanError;
use nm_base::{Limit, MailPath, Many, NoMemory, Text, TextSet};
use nm_maildir::{Listing, MailError, Maildir};
use std::alloc::Global;

/// The most files that a walk lists.
const MAX_FILES: usize = 1_048_576;

/// The most folders that a walk lists.
const MAX_FOLDERS: usize = 65_536;

/// How many levels a walk lists: the root, and folders of up to 32 components.
const LEVELS: u32 = 33;

/// How many folders were listed, how many files count, and their paths.
#[derive(Drop)]
pub(crate) struct Walk {
    pub folders: usize,
    pub files: usize,
    pub paths: TextSet<MailPath>,
}

/// A folder that is to be walked through, and how many levels from it on may be listed.
#[derive(Drop)]
pub(crate) struct Folder {
    pub path: Text,
    pub levels: u32,
}

/// The paths of the mail in all folders of the tree, in byte order.
pub fn list_paths<M: Maildir>(alloc: Global, mail: &mut M) -> Result<TextSet<MailPath>, ScanError>
    // A tree that is known says which they are, or which limit it passes first.
    ensures listed { IfOk result (λ paths. IfSome (M.observed mail.old).tree (λ t. scanned t ≡ Ok paths)) }
    ensures limit { (limit : Limit) → result ≡ Err (ScanError.Limit limit) → IfSome (M.observed mail.old).tree (λ t. scanned t ≡ Err limit) }
    ensures tree { (M.observed mail.new).tree ≡ (M.observed mail.old).tree }
    ensures reads { (M.observed mail.new).reads ≡ (M.observed mail.old).reads }
    ensures kind { IfErr result (λ error. IsTrue (is_walk_error error)) }
    ensures cause { HasCauseOf is_scan_fault (M.observed mail.old).faults (M.observed mail.new).faults result }
{
    let mut walk = Walk {
        folders: 0,
        files: 0,
        paths: TextSet::new(alloc),
    };
    let mut pending = Many::new(alloc);
    let root = Text::of(alloc, "")?;
    pending.push(Folder {
        path: root,
        levels: LEVELS,
    })?;
    'folders: while let Some(folder) = pending.pop() {
        match walk_folder(alloc, mail, &folder, &mut walk, &mut pending) {
            Ok(()) => {}
            Err(error) => return Err(error),
        }
    }
    let Walk {
        folders: _,
        files: _,
        paths,
    } = walk;
    Ok(paths)
}

/// Lists one folder and its mail; its other folders are then to be walked through first.
fn walk_folder<M: Maildir>(
    alloc: Global,
    mail: &mut M,
    folder: &Folder,
    walk: &mut Walk,
    pending: &mut Many<Folder>,
) -> Result<(), ScanError>
    ensures walks { IfSome (M.observed mail.old).tree (λ t. OnOk result (walked walk.old (met_in folder.now.levels t folder.now.path ++ to_come t (reverse pending.old)) ≡ walked walk.new (to_come t (reverse pending.new)))) }
    ensures limit { (limit : Limit) → result ≡ Err (ScanError.Limit limit) → IfSome (M.observed mail.old).tree (λ t. walked walk.old (met_in folder.now.levels t folder.now.path) ≡ Err limit) }
    ensures more { OnOk result (walk.old.folders < walk.new.folders) }
    ensures few { walk.old.folders ≤ max_folders → walk.new.folders ≤ max_folders }
    ensures tree { (M.observed mail.new).tree ≡ (M.observed mail.old).tree }
    ensures reads { (M.observed mail.new).reads ≡ (M.observed mail.old).reads }
    ensures kind { IfErr result (λ error. IsTrue (is_walk_error error)) }
    ensures cause { HasCauseOf is_scan_fault (M.observed mail.old).faults (M.observed mail.new).faults result }
{
    match enter(walk, folder.levels) {
        Ok(()) => {}
        Err(error) => return Err(error),
    }
    let dirs = list_dirs(mail, &folder.path)?;
    let levels = folder.levels - 1;
    match walk_part(alloc, mail, folder, &dirs, "new", walk) {
        Ok(()) => {}
        Err(error) => return Err(error),
    }
    match walk_part(alloc, mail, folder, &dirs, "cur", walk) {
        Ok(()) => {}
        Err(error) => return Err(error),
    }
    push_others(
        alloc,
        folder.path.as_str(),
        levels,
        dirs.as_slice(),
        pending,
    )?;
    Ok(())
}

/// The folders in a folder. A folder that is walked through has no mail of its own, so the names of its files are
/// dropped.
fn list_dirs<M: Maildir>(mail: &mut M, dir: &Text) -> Result<Many<Text>, MailError>
    ensures dirs { IfOk result (λ dirs. IfSome (M.observed mail.old).tree (λ t. dirs ≡ (listing_of t dir.now).dirs)) }
    ensures keeps { KeepsMail (M.observed mail.old) (M.observed mail.new) result }
{
    match mail.list(dir) {
        Ok(Listing { dirs, files: _ }) => Ok(dirs),
        Err(error) => Err(error),
    }
}

/// One folder more is listed.
fn enter(walk: &mut Walk, levels: u32) -> Result<(), ScanError>
    ensures walks { Walks (with_folder levels walk.old) result walk.new }
    ensures more { OnOk result (walk.old.folders < walk.new.folders) }
    ensures some { OnOk result (0 < levels) }
    ensures few { walk.old.folders ≤ max_folders → walk.new.folders ≤ max_folders }
    ensures err { OnErr result (walk.new ≡ walk.old) }
    ensures kind { IfErr result (λ error. IsTrue (is_walk_error error)) }
    ensures cause { IfErr result (λ error. is_scan_fault error ≡ false) }
{
    if walk.folders >= MAX_FOLDERS {
        return Err(ScanError::Limit(Limit::Dirs));
    }
    if levels == 0 {
        return Err(ScanError::Limit(Limit::Depth));
    }
    walk.folders += 1;
    Ok(())
}

/// Lists `new` or `cur` of a folder, where the folder has it.
fn walk_part<M: Maildir>(
    alloc: Global,
    mail: &mut M,
    folder: &Folder,
    dirs: &Many<Text>,
    name: &str,
    walk: &mut Walk,
) -> Result<(), ScanError>
    requires some { 0 < folder.now.levels }
    ensures walks { IfSome (M.observed mail.old).tree (λ t. dirs.now ≡ (listing_of t folder.now.path).dirs
        → Walks (walked walk.old (part_met (folder.now.levels - 1) t folder.now.path name.now)) result walk.new) }
    ensures more { walk.old.folders ≤ walk.new.folders }
    ensures few { walk.old.folders ≤ max_folders → walk.new.folders ≤ max_folders }
    ensures tree { (M.observed mail.new).tree ≡ (M.observed mail.old).tree }
    ensures reads { (M.observed mail.new).reads ≡ (M.observed mail.old).reads }
    ensures kind { IfErr result (λ error. IsTrue (is_walk_error error)) }
    ensures cause { HasCauseOf is_scan_fault (M.observed mail.old).faults (M.observed mail.new).faults result }
{
    if !has_name(dirs.as_slice(), name) {
        return Ok(());
    }
    walk_mail(alloc, mail, folder, name, walk)
}

/// Lists a folder that holds mail.
fn walk_mail<M: Maildir>(
    alloc: Global,
    mail: &mut M,
    folder: &Folder,
    name: &str,
    walk: &mut Walk,
) -> Result<(), ScanError>
    requires some { 0 < folder.now.levels }
    ensures walks { IfSome (M.observed mail.old).tree (λ t. Walks (walked walk.old (mail_met (folder.now.levels - 1) t (inside folder.now.path name.now))) result walk.new) }
    ensures more { walk.old.folders ≤ walk.new.folders }
    ensures few { walk.old.folders ≤ max_folders → walk.new.folders ≤ max_folders }
    ensures tree { (M.observed mail.new).tree ≡ (M.observed mail.old).tree }
    ensures reads { (M.observed mail.new).reads ≡ (M.observed mail.old).reads }
    ensures kind { IfErr result (λ error. IsTrue (is_walk_error error)) }
    ensures cause { HasCauseOf is_scan_fault (M.observed mail.old).faults (M.observed mail.new).faults result }
{
    match enter(walk, folder.levels - 1) {
        Ok(()) => {}
        Err(error) => return Err(error),
    }
    let dir = within(alloc, folder.path.as_str(), name)?;
    let listing = mail.list(&dir)?;
    add_files(alloc, dir.as_str(), listing.files.as_slice(), walk)
}

fn has_name(names: &[Text], name: &str) -> bool
    ensures { result ≡ has_text names.now name.now }
{
    names.iter().any(|other| name == other.as_str())
}

/// Counts the files of a folder that holds mail.
fn add_files(alloc: Global, dir: &str, names: &[Text], walk: &mut Walk) -> Result<(), ScanError>
    ensures walks { Walks (walked walk.old (map file (paths_in dir.now names.now))) result walk.new }
    ensures folders { walk.new.folders ≡ walk.old.folders }
    ensures kind { IfErr result (λ error. IsTrue (is_walk_error error)) }
    ensures cause { IfErr result (λ error. is_scan_fault error ≡ false) }
{
    'names: for name in names {
        match add_file(alloc, dir, name, walk) {
            Ok(()) => {}
            Err(error) => return Err(error),
        }
    }
    Ok(())
}

/// Counts a file, where its name does not begin with a dot and its path is not too long.
fn add_file(alloc: Global, dir: &str, name: &Text, walk: &mut Walk) -> Result<(), ScanError>
    ensures walks { Walks (walked walk.old (map file (paths_in dir.now (name.now ∷ [])))) result walk.new }
    ensures folders { walk.new.folders ≡ walk.old.folders }
    ensures kind { IfErr result (λ error. IsTrue (is_walk_error error)) }
    ensures cause { IfErr result (λ error. is_scan_fault error ≡ false) }
{
    if !is_counted(name.as_bytes()) {
        return Ok(());
    }
    let text = joined(alloc, dir, name.as_str())?;
    let Ok(path) = MailPath::new(text) else {
        return Ok(());
    };
    if walk.files >= MAX_FILES {
        return Err(ScanError::Limit(Limit::Files));
    }
    walk.paths.insert(path)?;
    walk.files += 1;
    Ok(())
}

fn is_counted(name: &[u8]) -> bool
    ensures { result ≡ counts name.now }
{
    match name {
        [] => false,
        [first, ..] => *first != b'.',
    }
}

/// The path of a name in a folder, which may be the root.
fn within(alloc: Global, dir: &str, name: &str) -> Result<Text, NoMemory>
    ensures { IfOk result (λ text. text ≡ inside dir.now name.now) }
{
    if dir.is_empty() {
        return Text::of(alloc, name);
    }
    joined(alloc, dir, name)
}

fn joined(alloc: Global, dir: &str, name: &str) -> Result<Text, NoMemory>
    ensures { IfOk result (λ text. text ≡ dir.now ++ 47 ∷ name.now) }
{
    let mut text = String::from_str(alloc, dir)?;
    text.push_str("/")?;
    text.push_str(name)?;
    Ok(Text::from_string(text)?)
}

/// Puts the other folders of a folder before those that are pending, the first of them on top.
fn push_others(
    alloc: Global,
    dir: &str,
    levels: u32,
    names: &[Text],
    pending: &mut Many<Folder>,
) -> Result<(), NoMemory>
    ensures { OnOk result (reverse pending.new ≡ map (folder_inside levels dir.now) (filter is_walked names.now) ++ reverse pending.old) }
{
    let mut at = names.len();
    'names: while at > 0 {
        at -= 1;
        push_other(alloc, dir, levels, &names[at], pending)?;
    }
    Ok(())
}

fn push_other(
    alloc: Global,
    dir: &str,
    levels: u32,
    name: &Text,
    pending: &mut Many<Folder>,
) -> Result<(), NoMemory>
    ensures { OnOk result (reverse pending.new ≡ map (folder_inside levels dir.now) (filter is_walked (name.now ∷ [])) ++ reverse pending.old) }
{
    if !is_walked(name.as_str()) {
        return Ok(());
    }
    let path = within(alloc, dir, name.as_str())?;
    pending.push(Folder { path, levels })?;
    Ok(())
}

fn is_walked(name: &str) -> bool
    ensures { result ≡ is_walked name.now }
{
    name != "new" && name != "cur" && name != "tmp" && name != ".notmuch"
}
