//! Why a part goes no further.
ghost use Rattle.std.specs.Prelude.{◌≡◌};
ghost use Rattle.c_run_cells.specs.declared.fail.Fail.TheVariants.{Memory, Trapped};

use mpi_call::call::Fault;
use std::alloc::{AllocError, AllocFailed};

/// Why evaluation goes no further.
#[derive(Clone, Copy)]
pub enum Fail {
    /// Out of memory.
    Memory,
    Trapped(Fault),
}

impl From<AllocError> for Fail {
    ghost from_gives = { λ _ fail. fail ≡ Memory };

    fn from(_error: AllocError) -> Fail {
        Fail::Memory
    }
}

impl<T: Drop> From<AllocFailed<T>> for Fail {
    ghost from_gives = { λ _ fail. fail ≡ Memory };

    fn from(_error: AllocFailed<T>) -> Fail {
        Fail::Memory
    }
}

impl From<Fault> for Fail {
    ghost from_gives = { λ fault fail. fail ≡ Trapped fault };

    fn from(fault: Fault) -> Fail {
        Fail::Trapped(fault)
    }
}
