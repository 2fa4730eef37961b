//! Declarations, and the blocks that they are in.
ghost use Rattle.std.specs.Prelude.{◌≡◌, ◌∷◌, [], OnOk};
ghost use Rattle.c_scope.specs.inside.Innermost.{innermost_declaration};
ghost use Rattle.c_scope.specs.Scopes.{closed, is_in_block, named, opening};
ghost use Rattle.c_scope.specs.Variables.{is_variable};

use crate::innermost::{DeclaredName, Innermost};
use crate::meaning::Entity;
use std::alloc::{AllocError, Global};
use std::marker::Model;

/// The begin of a block, or a declaration.
#[derive(Clone, Copy)]
pub enum Placed<'a> {
    Opening,
    Named {
        name: &'a [u8],
        entity: Entity,
        /// What the name meant outside.
        hidden: Option<DeclaredName>,
    },
}

/// What is declared, the outermost first, and by names. Contracts see a list, the innermost declaration first.
#[derive(Drop)]
pub struct Declarations<'a> {
    placed: Vec<Placed<'a>>,
    innermost: Innermost<'a>,
    /// How many variables are declared.
    variables: usize,
    /// How many blocks are open.
    depth: usize,
}

impl<'a> Model for Declarations<'a> {
    ghost use Rattle.std.specs.Prelude.{List, reverse};
    ghost use Rattle.c_scope.specs.Scopes.{Entry};
    ghost use Rattle.c_scope.specs.inside.ScopeView.{IsScopeTable, entries_view};

    ghost Value = { List Entry };

    ghost view = { λ s. entries_view s.placed.items };

    ghost invariant = { λ s. IsScopeTable (reverse s.placed.items) s.innermost s.variables s.depth };
}

impl<'a> Declarations<'a> {
    /// Nothing is declared, and no block is open.
    pub fn new(alloc: Global) -> Self
        ensures { result ≡ [] }
    {
        Declarations {
            placed: Vec::new(alloc),
            innermost: Innermost::new(alloc),
            variables: 0,
            depth: 0,
        }
    }

    /// The innermost declaration of a name.
    pub fn get(&self, name: &[u8]) -> Option<DeclaredName>
        ensures { result ≡ innermost_declaration self.now name.now }
    {
        self.innermost.get(name)
    }

    /// Whether a name is declared in the innermost block.
    pub fn is_in_block(&self, name: &[u8]) -> bool
        ensures { result ≡ is_in_block self.now name.now }
    {
        match self.innermost.get(name) {
            Some(declaration) => declaration.depth == self.depth,
            None => false,
        }
    }

    /// Declares a name in the innermost block. When out of memory, nothing is declared.
    pub fn declare(&mut self, name: &'a [u8], entity: Entity) -> Result<(), AllocError>
        ensures { OnOk result (self.new ≡ named name.now entity ∷ self.old) }
    {
        let hidden = self.innermost.get(name);
        let declaration = DeclaredName {
            entity,
            variables: self.variables,
            depth: self.depth,
        };
        self.placed.reserve(1)?;
        self.innermost.hide(name, declaration)?;
        self.placed.push_reserved(Placed::Named {
            name,
            entity,
            hidden,
        });
        self.variables += is_variable(entity);
        Ok(())
    }

    /// Begins a block.
    pub fn open(&mut self) -> Result<(), AllocError>
        ensures { OnOk result (self.new ≡ opening ∷ self.old) }
    {
        self.placed.push(Placed::Opening)?;
        self.depth += 1;
        Ok(())
    }

    /// Ends the innermost block. Takes no memory.
    pub fn close(&mut self)
        ensures { self.new ≡ closed self.old }
    {
        while let Some(placed) = self.placed.pop() {
            match placed {
                Placed::Opening => {
                    self.depth -= 1;
                    return;
                }
                Placed::Named {
                    name,
                    entity,
                    hidden,
                } => {
                    self.innermost.put_back(name, hidden);
                    self.variables -= is_variable(entity);
                }
            }
        }
    }
}

fn is_variable(entity: Entity) -> usize
    ensures { result ≡ is_variable entity }
{
    match entity {
        Entity::Function(_) | Entity::Define(_) => 0,
        _ => 1,
    }
}
