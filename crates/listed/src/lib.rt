//! One list type for all that contracts see as a list.
#![tactic(auto)]

ghost use Rattle.std.specs.Prelude.{◌≡◌, ◌++◌, ◌∷◌, [], IfErr, IfOk, OnErr, OnOk};
ghost use Rattle.std.proofs.Common.{rules};
ghost use Rattle.std.specs.Cmp.Rules.{comparing};
ghost use lib.Pointwise.{pointwise};

use std::alloc::{AllocError, AllocFailed, Global};
use std::marker::Model;

/// Values in order, which contracts see as a list.
#[derive(Clone, Drop)]
pub struct Listed<T> {
    values: Vec<T>,
}

impl<T> Model for Listed<T> {
    ghost use Rattle.std.specs.Coded.{coded_list};
    ghost use Rattle.std.specs.Prelude.{List};

    ghost Value = { List T };

    ghost coded = { coded_list T.code };

    ghost view = { λ s. s.values.items };
}

impl<T> Listed<T> {
    /// The empty list. Takes no memory.
    pub fn new(alloc: Global) -> Self
        ensures { result ≡ [] }
    {
        Listed {
            values: Vec::new(alloc),
        }
    }

    /// Adds a value at the end. When out of memory, the error gives it back and nothing has changed.
    pub fn push(&mut self, value: T) -> Result<(), AllocFailed<T>>
        ensures ok { OnOk result (self.new ≡ self.old ++ value ∷ []) }
        ensures err { OnErr result (self.new ≡ self.old) }
        ensures back { IfErr result (λ refused. refused.value ≡ value) }
    {
        self.values.push(value)
    }

    /// The values in order.
    pub fn as_slice(&self) -> &[T]
        ensures { result.now ≡ self.now }
    {
        &self.values
    }
}

impl<T: Copy> Listed<T> {
    /// A copy of a slice.
    pub fn from_slice(alloc: Global, values: &[T]) -> Result<Self, AllocError>
        ensures { IfOk result (λ made. made ≡ values.now) }
    {
        Ok(Listed {
            values: Vec::from_slice(alloc, values)?,
        })
    }
}

impl<T: PartialEq> PartialEq for Listed<T> {
    ghost eq = { pointwise T.eq };

    ghost laws = { Prim.search (comparing, rules) };

    fn eq(&self, other: &Listed<T>) -> bool {
        self.values.as_slice() == other.values.as_slice()
    }
}
