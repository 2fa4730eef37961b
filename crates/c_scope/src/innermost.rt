//! The innermost declarations of names.
ghost use Rattle.std.specs.Prelude.{◌≡◌, [], IsSome, None, OnErr, OnOk, Some};
ghost use Rattle.c_scope.specs.inside.Innermost.{Sets, HaveSameDeclarations, declared_in};

use crate::meaning::Entity;
use indexmap::IndexMap;
use std::alloc::{AllocError, Global};
use std::marker::Model;

/// What a name was declared as, how many variables were declared before it, and in how many blocks it is.
#[derive(Clone, Copy)]
pub struct DeclaredName {
    pub entity: Entity,
    pub variables: usize,
    pub depth: usize,
}

/// The innermost declarations of names; None for a name whose blocks have ended.
#[derive(Drop)]
pub struct Innermost<'a> {
    names: IndexMap<&'a [u8], Option<DeclaredName>>,
}

impl<'a> Model for Innermost<'a> {
    ghost use Rattle.c_scope.specs.inside.Innermost.{DeclarationTable};

    ghost Value = { DeclarationTable };

    ghost view = { λ s. s.names.entries };
}

impl<'a> Innermost<'a> {
    /// Nothing is declared.
    pub fn new(alloc: Global) -> Self
        ensures { result ≡ [] }
    {
        Innermost {
            names: IndexMap::new(alloc),
        }
    }

    /// The innermost declaration of a name.
    pub fn get(&self, name: &[u8]) -> Option<DeclaredName>
        ensures { result ≡ declared_in self.now name.now }
    {
        match self.names.get(name) {
            Some(declaration) => *declaration,
            None => None,
        }
    }

    /// Hides the innermost declaration of a name by another.
    pub fn hide(&mut self, name: &'a [u8], declaration: DeclaredName) -> Result<(), AllocError>
        ensures ok { OnOk result (Sets self.old self.new name.now (Some declaration)) }
        ensures err { OnErr result (HaveSameDeclarations self.old self.new) }
    {
        self.names.insert(name, Some(declaration))?;
        Ok(())
    }

    /// Puts back what the innermost declaration of a name hid. Takes no memory.
    pub fn put_back(&mut self, name: &[u8], hidden: Option<DeclaredName>)
        requires { IsSome (declared_in self.old name.now) }
        ensures { Sets self.old self.new name.now hidden }
    {
        if let Some(declaration) = self.names.get_mut(name) {
            *declaration = hidden;
        }
    }
}
