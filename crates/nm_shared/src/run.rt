//! A block of items that is copied where it is changed while another clone has it: `runs`, and so maps, are made of
//! these.

ghost use Rattle.std.specs.Prelude.{◌≡◌, ◌+◌, ◌≤◌, ◌<◌, [], ◌∷◌, ◌++◌, take, drop, length, slice_set, slice_index_or, IfOk, OnOk, OnErr};
ghost use Rattle.std.specs.List.{insert, remove};

use nm_base::{Copies, NoMemory};
use std::alloc::Global;
use std::marker::Model;
use std::sync::Arc;

/// How many places a copied run has to spare, so that the change after the copy needs no new block.
const SPARE: usize = 8;

/// A block of items, which is copied where it is changed while another clone has it too.
#[derive(Drop)]
pub struct Run<T> {
    arc: Arc<Vec<T>, Global>,
}

impl<T> Model for Run<T> {
    ghost use Rattle.std.specs.Prelude.{List};
    ghost use Rattle.std.specs.Coded.{coded_list};
    ghost use Rattle.std.specs.Arc.{arc_value};

    ghost Value = { List T };

    ghost coded = { coded_list T.code };

    ghost view = { λ r. (arc_value r.arc).items };
}

impl<T> Run<T> {
    pub fn as_slice(&self) -> &[T]
        ensures { result.now ≡ self.now }
    {
        self.arc.as_slice()
    }

    pub fn len(&self) -> usize
        ensures { result ≡ length self.now }
    {
        self.as_slice().len()
    }
}

impl<T: Drop> Run<T> {
    pub fn of(vec: Vec<T>) -> Result<Run<T>, NoMemory>
        ensures { IfOk result (λ run. run ≡ vec.items) }
    {
        let alloc = *vec.allocator();
        Ok(Run {
            arc: Arc::new(alloc, vec)?,
        })
    }
}

/// The copy is a clone, over the same block.
impl<T: Drop> Copies for Run<T> {
    fn copy(&self) -> Result<Run<T>, NoMemory> {
        Ok(Run {
            arc: Arc::try_clone(&self.arc)?,
        })
    }
}

/// A list of one's own with the same items, and some room.
pub fn copied<T: Copies>(alloc: Global, items: &[T]) -> Result<Vec<T>, NoMemory>
    ensures { IfOk result (λ vec. vec.items ≡ items.now) }
{
    let mut copied = Vec::with_capacity(alloc, items.len().saturating_add(SPARE))?;
    'items: for item in items {
        copied.push(item.copy()?)?;
    }
    Ok(copied)
}

impl<T: Copies> Run<T> {
    fn copied_items(&self) -> Result<Vec<T>, NoMemory>
        ensures { IfOk result (λ vec. vec.items ≡ self.now) }
    {
        copied(*self.arc.allocator(), self.as_slice())
    }

    pub fn insert(&mut self, at: usize, item: T) -> Result<(), NoMemory>
        requires { at ≤ length self.old }
        ensures ok { OnOk result (self.new ≡ insert self.old at item) }
        ensures err { OnErr result (self.new ≡ self.old) }
    {
        if let Some(items) = Arc::get_mut(&mut self.arc) {
            items.insert(at, item)?;
            return Ok(());
        }
        let mut items = self.copied_items()?;
        items.insert(at, item)?;
        *self = Run::of(items)?;
        Ok(())
    }

    pub fn remove(&mut self, at: usize) -> Result<(), NoMemory>
        requires { at < length self.old }
        ensures ok { OnOk result (self.new ≡ remove self.old at) }
        ensures err { OnErr result (self.new ≡ self.old) }
    {
        if let Some(items) = Arc::get_mut(&mut self.arc) {
            items.remove(at);
            return Ok(());
        }
        let mut items = self.copied_items()?;
        items.remove(at);
        *self = Run::of(items)?;
        Ok(())
    }
}

impl<K: Copies, V: Copies> Run<(K, V)> {
    /// Puts `value` beside the key that is at `at`.
    pub fn replace_value(&mut self, at: usize, value: V) -> Result<(), NoMemory>
        requires { at < length self.old }
        ensures ok { OnOk result ((entry : K × V) → self.new ≡ slice_set self.old at ((slice_index_or self.old at entry).0, value)) }
        ensures err { OnErr result (self.new ≡ self.old) }
    {
        if let Some(items) = Arc::get_mut(&mut self.arc) {
            items[at].1 = value;
            return Ok(());
        }
        let mut items = self.copied_items()?;
        items[at].1 = value;
        *self = Run::of(items)?;
        Ok(())
    }
}
