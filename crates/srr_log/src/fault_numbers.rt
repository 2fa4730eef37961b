//! Faults by number, in both formats.
ghost use Rattle.std.specs.Prelude.{◌≡◌};
ghost use Rattle.mpi_call.specs.Halts.{fault_number};
ghost use Rattle.srr_log.specs.FaultNumbers.{fault_numbered};

use mpi_call::call::Fault;

/// The number of a fault, from 1 on.
pub fn fault_number(fault: Fault) -> u8
    ensures { result ≡ fault_number fault }
{
    fault as u8 + 1
}

/// The fault that has this number.
pub fn fault_numbered(number: u32) -> Option<Fault>
    ensures { result ≡ fault_numbered number }
{
    match number {
        1 => Some(Fault::DivideByZero),
        2 => Some(Fault::OutOfBounds),
        3 => Some(Fault::BadRank),
        4 => Some(Fault::BadTag),
        5 => Some(Fault::BadCount),
        6 => Some(Fault::BadComm),
        7 => Some(Fault::Budget),
        8 => Some(Fault::OutputFull),
        9 => Some(Fault::Depth),
        10 => Some(Fault::Cells),
        _ => None,
    }
}
