//! A map from names to indices. Names are added and never removed.
ghost use Rattle.std.specs.Prelude.{◌≡◌, [], ◌∷◌, ◌++◌, IfErr, OnOk, None};
ghost use Rattle.mon_inventory.specs.Names.{named};

use crate::fault::Cause;
use indexmap::IndexMap;
use std::alloc::Global;
use std::marker::Model;

/// A map from names to indices; a look-up takes constant time on average.
#[derive(Drop)]
pub struct NameIndex {
    indices: IndexMap<Vec<u8>, u16>,
}

impl Model for NameIndex {
    ghost use Rattle.std.specs.Prelude.{List, ℕ, map};

    ghost Value = { List (List ℕ × ℕ) };

    ghost view = { λ n. map (λ e. (e.0.items, e.1)) n.indices.entries };
}

impl NameIndex {
    /// Makes an empty map. Takes no memory.
    pub fn new(alloc: Global) -> NameIndex
        ensures { result ≡ [] }
    {
        NameIndex {
            indices: IndexMap::new(alloc),
        }
    }

    /// The index of a name; `None` where the map does not have the name. Takes no memory.
    pub fn get(&self, name: &[u8]) -> Option<u16>
        ensures { result ≡ named self.now name.now }
    {
        self.indices.get(name).copied()
    }

    /// Adds a name with its index. Requires that the map does not have the name. If memory runs out, returns
    /// `Cause::Memory`, and the caller drops the map.
    pub fn add(&mut self, alloc: Global, name: &[u8], index: u16) -> Result<(), Cause>
        requires { named self.old name.now ≡ None }
        ensures ok { OnOk result (self.new ≡ self.old ++ (name.now, index) ∷ []) }
        ensures err { IfErr result (λ e. e ≡ Cause.Memory) }
    {
        let key = Vec::from_slice(alloc, name)?;
        self.indices.insert(key, index)?;
        Ok(())
    }
}
