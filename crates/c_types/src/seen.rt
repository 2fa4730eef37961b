//! The names that the text has declared.
ghost use Rattle.std.specs.Prelude.{◌≡◌, ◌++◌, ◌∷◌, [], OnOk};
ghost use Rattle.std.specs.List.{list_any};
ghost use Rattle.std.specs.Str.{bytes_eq};
ghost use Rattle.c_types.specs.inside.Seen.{HaveSameNames};

use indexmap::IndexSet;
use std::alloc::{AllocError, Global};
use std::marker::Model;

/// The names that the text has declared, each once.
#[derive(Drop)]
pub struct SeenNames<'a> {
    names: IndexSet<&'a [u8]>,
}

impl<'a> Model for SeenNames<'a> {
    ghost use Rattle.std.specs.Prelude.{List, map, ℕ};

    ghost Value = { List (List ℕ) };

    ghost view = { λ s. map (λ name. name.now) s.names.keys };
}

impl<'a> SeenNames<'a> {
    /// No names.
    pub fn new(alloc: Global) -> Self
        ensures { result ≡ [] }
    {
        SeenNames {
            names: IndexSet::new(alloc),
        }
    }

    /// Whether a name is one of them.
    pub fn has(&self, name: &[u8]) -> bool
        ensures { result ≡ list_any (bytes_eq name.now) self.now }
    {
        self.names.contains(name)
    }

    /// Adds a name.
    pub fn add(&mut self, name: &'a [u8]) -> Result<(), AllocError>
        ensures { OnOk result (HaveSameNames self.new (self.old ++ name.now ∷ [])) }
    {
        self.names.insert(name)?;
        Ok(())
    }
}
