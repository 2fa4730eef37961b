//! Lists of positions by keys.
ghost use Rattle.std.specs.Prelude.{◌≡◌, [], OnOk};
ghost use Rattle.causes.specs.PositionTables.{AddsPositionBy, positions_by};

use crate::positions::Positions;
use indexmap::IndexMap;
use std::alloc::{AllocError, Global};
use std::hash::Hash;
use std::marker::Model;

/// Lists of positions by keys.
#[derive(Drop)]
pub struct PositionTable<K: Eq + Hash> {
    alloc: Global,
    lists: IndexMap<K, Positions>,
}

impl<K: Eq + Hash> Model for PositionTable<K> {
    ghost use Rattle.std.specs.Prelude.{List, ℕ};

    ghost Value = { List (K × List ℕ) };

    ghost view = { λ s. s.lists.entries };
}

impl<K: Copy + Eq + Hash> PositionTable<K> {
    /// No positions.
    pub fn new(alloc: Global) -> Self
        ensures { result ≡ [] }
    {
        PositionTable {
            alloc,
            lists: IndexMap::new(alloc),
        }
    }

    /// The positions for a key, in order.
    pub fn get(&self, key: &K) -> &[u32]
        ensures { result.now ≡ positions_by K.eq self.now key.now }
    {
        match self.lists.get(key) {
            Some(places) => places.as_slice(),
            None => &[],
        }
    }

    /// Adds a position for a key.
    pub fn push(&mut self, key: &K, at: u32) -> Result<(), AllocError>
        ensures { OnOk result (AddsPositionBy K.eq (K.eq key.now) at self.old self.new) }
    {
        if let Some(places) = self.lists.get_mut(key) {
            return places.push(at);
        }
        let mut places = Positions::new(self.alloc);
        places.push(at)?;
        self.lists.insert(*key, places)?;
        Ok(())
    }
}
