//! Lists of communicators' numbers.
ghost use Rattle.std.specs.Prelude.{◌≡◌, ◌++◌, ◌∷◌, [], IfErr, IfOk, OnErr, OnOk, replicate, slice_index};

use mpi_call::call::Comm;
use std::alloc::{AllocError, AllocFailed, Global};
use std::marker::Model;

/// The communicator that each member got, in member order, 0 for none; contracts see a list.
#[derive(Drop)]
pub struct Numbers {
    values: Vec<Comm>,
}

impl Model for Numbers {
    ghost use Rattle.std.specs.Prelude.{List, ℕ};

    ghost Value = { List ℕ };

    ghost view = { λ s. s.values.items };
}

impl Numbers {
    /// No members.
    pub fn new(alloc: Global) -> Self
        ensures { result ≡ [] }
    {
        Numbers {
            values: Vec::new(alloc),
        }
    }

    /// Adds the next member's number. When out of memory, the error gives it back and nothing has changed.
    pub fn push(&mut self, number: Comm) -> Result<(), AllocFailed<Comm>>
        ensures ok { OnOk result (self.new ≡ self.old ++ number ∷ []) }
        ensures err { OnErr result (self.new ≡ self.old) }
        ensures back { IfErr result (λ refused. refused.value ≡ number) }
    {
        self.values.push(number)
    }

    /// The same number for each of so many members.
    pub fn same(alloc: Global, number: Comm, members: usize) -> Result<Self, AllocError>
        ensures { IfOk result (λ numbers. numbers ≡ replicate members number) }
    {
        let values = vec![in alloc; number; members]?;
        Ok(Numbers { values })
    }

    /// The number at a place, 0 past the end. Takes no memory.
    pub fn at(&self, place: usize) -> Comm
        ensures { result ≡ slice_index self.now place }
    {
        match self.values.get(place) {
            Some(number) => *number,
            None => 0,
        }
    }
}
