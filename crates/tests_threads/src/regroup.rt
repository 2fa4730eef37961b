//! Logs of finer and coarser groups, beside those that the run has for these groups.
ghost use Rattle.std.specs.Prelude.{IfSome};
ghost use Rattle.group_plan.specs.Plans.{IsRisingGroup};
ghost use Rattle.srr_regroup.specs.Regrouping.{IsReplayOfAProgram};
ghost use Rattle.srr_replay.specs.Rounds.{IsReplayable};

use crate::starting::{program_of, read_back};
use c_program::CProgram;
use group_plan::{Plan, read_plan};
use mpi_call::lists::Ranks;
use replay_model::replayed::Replayed;
use srr_entry::log::Log;
use srr_log::write_log::write_log;
use srr_record::{Recording, record_serial};
use srr_regroup::laws::whole_replay_is_of_a_program;
use srr_regroup::{JoinFault, are_within, can_join, join, refine};
use srr_replay::serial::replay_serial;
use std::alloc::{AllocError, Global};
use wiz_base::bytes::Bytes;
use wiz_task::ranks::{start_all, start_group};

/// Ranks 0 and 1 send to rank 2, which receives from any.
const PROGRAM: &[u8] = b"int main(void) {
  int r, x, y;
  MPI_Comm_rank(MPI_COMM_WORLD, &r);
  if (r == 0) { x = 10; MPI_Send(&x, 1, MPI_INT, 2, 3, MPI_COMM_WORLD); }
  if (r == 1) { x = 20; MPI_Send(&x, 1, MPI_INT, 2, 3, MPI_COMM_WORLD); }
  if (r == 2) {
    MPI_Recv(&x, 1, MPI_INT, MPI_ANY_SOURCE, 3, MPI_COMM_WORLD, MPI_STATUS_IGNORE);
    MPI_Recv(&y, 1, MPI_INT, MPI_ANY_SOURCE, 3, MPI_COMM_WORLD, MPI_STATUS_IGNORE);
    printf(\"%d %d\\n\", x, y);
  }
  return 0;
}
";

/// All ranks in one group, and the receiver apart.
const COARSE: &[u8] = b"0-2\n";

const FINE: &[u8] = b"0 1\n2\n";

/// The recording of the program on one thread, with the groups of a plan.
fn record(alloc: Global, program: &CProgram, plan: &Plan) -> Result<Recording, AllocError> {
    let runs = start_all(alloc, program, plan.n())?;
    record_serial(alloc, program, PROGRAM, plan, runs, &[])
}

/// The recording with the groups of this plan's text.
fn recorded(alloc: Global, program: &CProgram, plan: &[u8]) -> Option<Recording> {
    let plan = read_plan(alloc, plan).ok()?;
    record(alloc, program, &plan).ok()
}

/// The text of a log.
fn text_of(alloc: Global, log: &Log) -> Option<Bytes> {
    if log.lists.as_slice().len() != log.group.as_slice().len() {
        return None;
    }
    write_log(alloc, log).ok()
}

/// The whole replay of a log.
fn replay(alloc: Global, program: &CProgram, log: &Log) -> Option<Replayed>
    requires { IsReplayable log.now }
    ensures { IfSome result (λ replayed. IsReplayOfAProgram log.now replayed.events.events) }
{
    let runs = start_group(alloc, program, log).ok()?;
    let replayed = replay_serial(alloc, program, log, runs, None).ok()?;
    whole_replay_is_of_a_program(program, log, &replayed.events);
    Some(replayed)
}

/// The text of the log of a part, from a replay of a log.
fn refined_text(alloc: Global, program: &CProgram, log: &Log, part: &Ranks) -> Option<Bytes>
    requires log { IsReplayable log.now }
    requires part { IsRisingGroup part.now }
{
    if !are_within(log.group.as_slice(), part.as_slice()) {
        return None;
    }
    let replayed = replay(alloc, program, log)?;
    let refined = refine(alloc, log, &replayed, part).ok()?;
    text_of(alloc, &refined)
}

/// The text of the log of two groups together, from a replay of each.
fn joined_text(alloc: Global, program: &CProgram, one: &Log, two: &Log) -> Option<Bytes>
    requires logs { IsReplayable one.now × IsReplayable two.now }
{
    can_join(one, two).ok()?;
    let first = replay(alloc, program, one)?;
    let second = replay(alloc, program, two)?;
    let joined = join(alloc, one, &first, two, &second).ok()?;
    text_of(alloc, &joined)
}

/// Whether the parts of the coarse log are the fine logs, and both of these together the coarse one.
fn are_regrouped(alloc: Global, program: &CProgram, coarse: &Log, fine: &[Log]) -> Option<bool> {
    let plan = read_plan(alloc, FINE).ok()?;
    if plan.groups() != 2 || fine.len() != 2 {
        return None;
    }
    let whole = read_back(alloc, coarse)?;
    let one = read_back(alloc, &fine[0])?;
    let two = read_back(alloc, &fine[1])?;
    let parts = refined_text(alloc, program, &whole, plan.ranks(0))? == text_of(alloc, &one)?
        && refined_text(alloc, program, &whole, plan.ranks(1))? == text_of(alloc, &two)?;
    let together = joined_text(alloc, program, &one, &two)? == text_of(alloc, &whole)?;
    let shared = can_join(&one, &whole) == Err(JoinFault::Shared { rank: 0 });
    Some(parts && together && shared)
}

#[test]
fn logs_are_refined_and_joined(rt: HostRuntime) {
    let alloc = rt.alloc();
    let program = program_of(alloc, PROGRAM).expect(&rt, "a program");
    let coarse = recorded(alloc, &program, COARSE).expect(&rt, "a recording");
    let fine = recorded(alloc, &program, FINE).expect(&rt, "a recording");
    let logs = coarse.logs.as_slice();
    assert!(&rt; logs.len() == 1);
    let found = are_regrouped(alloc, &program, &logs[0], fine.logs.as_slice());
    assert!(&rt; found == Some(true));
}
