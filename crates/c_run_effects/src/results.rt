//! Results joined: all values, or the first fault.
ghost use Rattle.std.specs.Prelude.{◌≡◌, IfErr, IfOk, Err, Ok};
ghost use Rattle.c_run_effects.specs.inside.Faults.{HasFault};

use mpi_call::call::Fault;

/// Two values, or the first fault.
pub fn both<A: Drop, B: Drop>(
    first: Result<A, Fault>,
    second: Result<B, Fault>,
) -> Result<(A, B), Fault>
    ensures first { IfOk result (λ values. first ≡ Ok values.0) }
    ensures second { IfOk result (λ values. second ≡ Ok values.1) }
    ensures fault { IfErr result (λ fault. HasFault fault first (λ _. second ≡ Err fault)) }
{
    let first = first?;
    Ok((first, second?))
}

/// Three values, or the first fault.
pub fn all_three<A: Drop, B: Drop, C: Drop>(
    first: Result<A, Fault>,
    second: Result<B, Fault>,
    third: Result<C, Fault>,
) -> Result<(A, B, C), Fault>
    ensures first { IfOk result (λ values. first ≡ Ok values.0) }
    ensures second { IfOk result (λ values. second ≡ Ok values.1) }
    ensures third { IfOk result (λ values. third ≡ Ok values.2) }
    ensures fault { IfErr result (λ fault. HasFault fault first (λ _. HasFault fault second (λ _. third ≡ Err fault))) }
{
    let first = first?;
    let second = second?;
    Ok((first, second, third?))
}
