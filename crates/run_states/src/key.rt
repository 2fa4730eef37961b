//! What a search looks a run up by.
ghost use Rattle.std.specs.Prelude.{◌≡◌, IfOk};
ghost use Rattle.run_model.specs.Run.{IsPromptRun};
ghost use Rattle.run_states.specs.Codes.{key_code};
ghost use Rattle.run_states.specs.Keys.{state_key};

use crate::code::{StateCode, add_lists};
use crate::origins::{add_origins, origins_of};
use crate::pairs::{add_partners, pairs_of};
use run_model::by_rank::ByRank;
use run_model::history::History;
use run_model::lists::all_ranks;
use run_model::program::Program;
use srr_entry::run_log::log_of;
use std::alloc::{AllocError, Global};

/// The code of the key of a run of the program on n ranks.
pub fn code_of_run<P: Program>(
    alloc: Global,
    program: &P,
    n: u8,
    history: &History,
) -> Result<StateCode, AllocError>
    requires { IsPromptRun (P.next program.now) n history.now.events }
    ensures { IfOk result (λ code. code.numbers.items ≡ key_code (state_key n history.now.events)) }
{
    let all = all_ranks(alloc, n)?;
    let by_rank = ByRank::new(alloc, history)?;
    let log = log_of(alloc, n, &all, &[], &by_rank)?;
    let mut code = StateCode::new(alloc);
    add_lists(&mut code, log.lists.as_slice())?;
    let events = history.as_slice();
    let pairs = pairs_of(alloc, events)?;
    add_partners(&mut code, events, pairs.as_slice(), n)?;
    let origins = origins_of(alloc, n, events)?;
    add_origins(&mut code, origins.as_slice())?;
    Ok(code)
}
