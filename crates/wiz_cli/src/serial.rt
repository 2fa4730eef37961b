//! One thread for all ranks.
use c_program::CProgram;
use replay_model::replayed::Replayed;
use srr_entry::log::Log;
use srr_record::Recording;
use std::alloc::{AllocError, Global};
use wiz_logs::replaying::make::replay_in_rounds;
use wiz_runs::recording::make::record_in_turns;
use wiz_task::ready::Ready;
use wiz_task::runner::Runner;

/// One thread, in rounds over the ranks.
#[derive(Drop)]
pub struct Serial;

impl Runner for Serial {
    ghost use Rattle.std.specs.Prelude.{false};

    ghost is_threaded = { false };

    ghost runs = { λ runner. Unit {0} };

    fn record(&self, alloc: Global, ready: &Ready) -> Result<Recording, AllocError> {
        record_in_turns(alloc, ready)
    }

    fn replay(
        &self,
        alloc: Global,
        program: &CProgram,
        log: &Log,
        stop: Option<(u8, u32)>,
    ) -> Result<Replayed, AllocError> {
        replay_in_rounds(alloc, program, log, stop)
    }
}
