//! A part of an ordered map that several clones may share: it is copied where it is changed then. A `shared_map` is made of these.

ghost use Rattle.std.specs.Prelude.{◌≡◌, IfOk, OnOk, OnErr};
ghost use Rattle.std.specs.BTreeMap.{insert_entry, is_at};
ghost use Rattle.std.specs.Map.{remove_entry};

use crate::part::Part;
use nm_base::{Copies, NoMemory};
use std::alloc::Global;
use std::marker::Model;
use std::sync::Arc;

/// A part that is copied where it is changed while another clone has it. A contract sees it as the part.
#[derive(Drop)]
pub struct SharedPart<K: Ord, V> {
    arc: Arc<Part<K, V>, Global>,
}

impl<K: Ord, V> Model for SharedPart<K, V> {
    ghost use Rattle.std.specs.Prelude.{List};
    ghost use Rattle.std.specs.Coded.{coded_list, coded×};
    ghost use Rattle.std.specs.Arc.{arc_value};

    ghost Value = { List (K × V) };

    ghost coded = { coded_list (coded× K.code V.code) };

    ghost view = { λ s. arc_value s.arc };
}

impl<K: Ord, V> SharedPart<K, V> {
    pub fn get(&self) -> &Part<K, V>
        ensures { result.now ≡ self.now }
    {
        &*self.arc
    }
}

impl<K: Ord + Drop, V: Drop> SharedPart<K, V> {
    pub fn new(part: Part<K, V>) -> Result<SharedPart<K, V>, NoMemory>
        ensures { IfOk result (λ shared. shared ≡ part) }
    {
        let alloc = part.alloc();
        Ok(SharedPart {
            arc: Arc::new(alloc, part)?,
        })
    }
}

/// The copy is a clone.
impl<K: Ord + Drop, V: Drop> Copies for SharedPart<K, V> {
    fn copy(&self) -> Result<SharedPart<K, V>, NoMemory> {
        Ok(SharedPart {
            arc: Arc::try_clone(&self.arc)?,
        })
    }
}

impl<K: Ord + Copies, V: Copies> SharedPart<K, V> {
    /// Puts `value` beside `key`. A key that is there already stays, and takes the value.
    pub fn insert(&mut self, key: K, value: V) -> Result<(), NoMemory>
        ensures ok { OnOk result (self.new ≡ insert_entry K.cmp self.old key value) }
        ensures err { OnErr result (self.new ≡ self.old) }
    {
        if let Some(part) = Arc::get_mut(&mut self.arc) {
            part.insert(key, value)?;
            return Ok(());
        }
        let mut part = self.get().share()?;
        part.insert(key, value)?;
        *self = SharedPart::new(part)?;
        Ok(())
    }

    pub fn remove(&mut self, key: &K) -> Result<(), NoMemory>
        ensures ok { OnOk result (self.new ≡ remove_entry (is_at (K.cmp key.now)) self.old) }
        ensures err { OnErr result (self.new ≡ self.old) }
    {
        if let Some(part) = Arc::get_mut(&mut self.arc) {
            part.remove(key)?;
            return Ok(());
        }
        let mut part = self.get().share()?;
        part.remove(key)?;
        *self = SharedPart::new(part)?;
        Ok(())
    }
}
