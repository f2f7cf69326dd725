//! The files of an index, by their arrival, by their paths and by their messages: a part of `nm_parts`, which `nm_state` reads.

ghost use Rattle.std.specs.Prelude.{◌≡◌, ◌∷◌, ◌++◌, [], ℕ, List, false, true, Some, if◌then◌else◌, IfOk, OnOk, MatchOption};
ghost use Rattle.std.specs.Cmp.Lexicographic.{slice_cmp};
ghost use Rattle.std.specs.List.{filter};
ghost use Rattle.std.specs.Option.{is_some};
ghost use Rattle.std.specs.Ordering.{is_eq, nat_cmp};
ghost use Rattle.nm_base.specs.Limits.{IsDate};
ghost use Rattle.nm_base.specs.Order.{IsSorted, has_text, same_text};
ghost use Rattle.std.specs.Map.{values_of};
ghost use Rattle.nm_commit.specs.Files.{has_id, has_path, with_moved, without_path};
ghost use Rattle.nm_tables.specs.FileTable.{AreFiled, at_place, at_text, files_in, lying_in, told_places};

use crate::iterators::{MessageFiles, Paths};
use crate::measured_map::MeasuredMap;
use crate::places::{add_place, remove_place};
use nm_base::{Copies, Facts, MailPath, Many, MessageId, NoMemory};
use nm_shared::{HashedMap, Shared, SharedMap};
use std::alloc::Global;

/// The files, each at its place: the number of files that had come before it.
pub struct FileTable {
    pub files: MeasuredMap<u64, (MailPath, Shared<Facts>)>,
    pub places: SharedMap<MailPath, u64>,
    pub of_id: HashedMap<MessageId, Shared<Many<u64>>>,
    pub next: u64,
}

impl Drop for FileTable {
    fn drop(self) {
        let FileTable {
            files: _,
            places: _,
            of_id: _,
            next: _,
        } = self;
    }
}

impl FileTable {
    pub fn new(alloc: Global) -> FileTable
        ensures filed { AreFiled result }
        ensures files { files_in result ≡ [] }
    {
        FileTable {
            files: MeasuredMap::new(alloc),
            places: SharedMap::new(alloc),
            of_id: HashedMap::new(alloc),
            next: 0,
        }
    }

    pub fn share(&self) -> Result<FileTable, NoMemory>
        ensures { IfOk result (λ file_table. file_table ≡ self.now) }
    {
        Ok(FileTable {
            files: self.files.share()?,
            places: self.places.share()?,
            of_id: self.of_id.share()?,
            next: self.next,
        })
    }
}

pub fn has_file(file_table: &FileTable, path: &MailPath) -> bool
    requires { AreFiled file_table.now }
    ensures { result ≡ has_path (files_in file_table.now) path.now }
{
    file_table.places.get(path).is_some()
}

pub fn is_live(file_table: &FileTable, id: &MessageId) -> bool
    requires { AreFiled file_table.now }
    ensures { result ≡ has_id (files_in file_table.now) id.now }
{
    file_table.of_id.get(id).is_some()
}

/// The paths, in the order of their bytes.
pub fn paths_of(file_table: &FileTable) -> Paths<'_>
    requires { AreFiled file_table.now }
    ensures sorted { IsSorted result }
    ensures paths { (path : List ℕ) → has_text result path ≡ has_path (files_in file_table.now) path }
{
    // No code needs the number; that the paths are in order comes with it.
    let _ = file_table.places.len();
    Paths::of(&file_table.places)
}

/// The files of a message, in the order of their arrival.
pub fn files_of<'a>(file_table: &'a FileTable, id: &MessageId) -> Option<MessageFiles<'a>>
    requires { AreFiled file_table.now }
    ensures { MatchOption result (has_id (files_in file_table.now) id.now ≡ false) (λ files. files ≡ filter (λ file. same_text id.now file.1.id) (files_in file_table.now)) }
{
    let places = file_table.of_id.get(id)?;
    Some(MessageFiles::of(places.get().as_slice(), file_table.files.pairs()))
}

/// The same, for less work where messages are asked for in the order in which they came. Beside the files is where the
/// next ones are looked for first; wherever a search begins, it finds the same.
pub fn files_by_hint<'a>(
    file_table: &'a FileTable,
    id: &MessageId,
    slot_hint: u64,
) -> Option<(u64, MessageFiles<'a>)>
    requires { AreFiled file_table.now }
    ensures live { is_some result ≡ has_id (files_in file_table.now) id.now }
    ensures files { MatchOption result (has_id (files_in file_table.now) id.now ≡ false) (λ found. found.1 ≡ filter (λ file. same_text id.now file.1.id) (files_in file_table.now)) }
{
    let (slot_hint, places) = file_table.of_id.get_by_hint(id, slot_hint)?;
    let files = MessageFiles::of(places.get().as_slice(), file_table.files.pairs());
    Some((slot_hint, files))
}

/// Puts a file after all others.
pub fn add_file(
    alloc: Global,
    file_table: &mut FileTable,
    path: &MailPath,
    facts: &Shared<Facts>,
) -> Result<(), NoMemory>
    requires filed { AreFiled file_table.old }
    requires new { has_path (files_in file_table.old) path.now ≡ false }
    requires dated { IsDate facts.now.date }
    ensures filed { OnOk result (AreFiled file_table.new) }
    ensures files { OnOk result (files_in file_table.new ≡ files_in file_table.old ++ (path.now, facts.now) ∷ []) }
{
    let place = file_table.next;
    if place == u64::MAX {
        return Err(NoMemory);
    }
    let file = (path.copy()?, facts.copy()?);
    file_table.files.insert(place, file)?;
    file_table.places.insert(path.copy()?, place)?;
    place_file(alloc, &mut file_table.of_id, facts, place)?;
    file_table.next = place + 1;
    Ok(())
}

/// A file of the message is at the place, after its other ones.
fn place_file(
    alloc: Global,
    of_id: &mut HashedMap<MessageId, Shared<Many<u64>>>,
    facts: &Shared<Facts>,
    place: u64,
) -> Result<(), NoMemory>
    ensures { OnOk result ((other : List ℕ) → at_text other of_id.new ≡ (if is_eq (slice_cmp nat_cmp other facts.now.id) then Some (told_places of_id.old facts.now.id ++ place ∷ []) else at_text other of_id.old)) }
{
    add_place(alloc, of_id, &facts.get().id, place)
}

/// The place of the file that is at the path, and its facts.
fn lying_at<'a>(file_table: &'a FileTable, path: &MailPath) -> (u64, &'a Shared<Facts>)
    requires filed { AreFiled file_table.now }
    requires there { has_path (files_in file_table.now) path.now ≡ true }
    ensures place { at_text path.now file_table.now.places ≡ Some result.0 }
    ensures file { at_place result.0 file_table.now.files ≡ Some (path.now, result.1.now) }
{
    let Some(place) = file_table.places.get(path) else {
        unreachable!()
    };
    let Some(file) = file_table.files.get(place) else {
        unreachable!()
    };
    (*place, &file.1)
}

/// Gives a file another path, in its place.
pub fn move_file(file_table: &mut FileTable, from: &MailPath, to: &MailPath) -> Result<(), NoMemory>
    requires filed { AreFiled file_table.old }
    requires there { has_path (files_in file_table.old) from.now ≡ true }
    requires free { has_path (files_in file_table.old) to.now ≡ false }
    ensures filed { OnOk result (AreFiled file_table.new) }
    ensures files { OnOk result (files_in file_table.new ≡ with_moved (files_in file_table.old) from.now to.now) }
{
    let (place, facts) = lying_at(file_table, from);
    let moved = (to.copy()?, facts.copy()?);
    file_table.files.insert(place, moved)?;
    file_table.places.remove(from)?;
    file_table.places.insert(to.copy()?, place)?;
    Ok(())
}

/// Takes a file out, and hands out its facts.
pub fn remove_file(
    alloc: Global,
    file_table: &mut FileTable,
    path: &MailPath,
) -> Result<Shared<Facts>, NoMemory>
    requires filed { AreFiled file_table.old }
    requires there { has_path (files_in file_table.old) path.now ≡ true }
    ensures filed { OnOk result (AreFiled file_table.new) }
    ensures facts { IfOk result (λ facts. lying_in (files_in file_table.old) path.now ≡ (path.now, facts) ∷ []) }
    ensures files { OnOk result (files_in file_table.new ≡ without_path (files_in file_table.old) path.now) }
{
    let (place, facts) = lying_at(file_table, path);
    let facts = facts.copy()?;
    file_table.files.remove(&place)?;
    file_table.places.remove(path)?;
    remove_place(alloc, &mut file_table.of_id, &facts.get().id, place)?;
    Ok(facts)
}
