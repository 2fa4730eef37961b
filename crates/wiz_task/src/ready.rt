//! What is run.
use c_program::CProgram;
use group_plan::Plan;
use picked_runs::turn::Turns;
use wiz_base::Bytes;

/// What is run: a program and its text, the groups of its ranks, and the first turns.
#[derive(Drop)]
pub struct Ready {
    pub text: Bytes,
    pub program: CProgram,
    pub plan: Plan,
    pub turns: Turns,
}
