//! Rounds of all ranks, each on a thread: a new round is made of the ranks that all slept.
ghost use Rattle.std.specs.Prelude.{◌≡◌, ◌<◌, ◌≤◌, [], ℕ, IfOk, All, false, length, slice_index_or};
ghost use Rattle.turn_lock.specs.Seat.{AreFresh, HasFrame};
ghost use Rattle.turn_lock.specs.Seats.{AllIdle};
ghost use Rattle.rank_threads.specs.inside.Workers.{AreBeside, AreSeated, AreWorkers, AreRunsAfter, CanWork, HasWorked};

use crate::attempts::Attempts;
use crate::bell::Bell;
use crate::gate::Gate;
use crate::looks::Looks;
use crate::patience::Patience;
use crate::worker::{Worker, work};
use mpi_call::limits::MOST_RANKS;
use run_model::program::{Program, RankRun};
use std::alloc::{AllocError, Global};
use std::sync::Wait;
use std::thread;
use std::thread::Threads;
use turn_lock::{Ledger, Seat, TurnLock};

/// Runs the ranks of these numbers, 1 to 64, each on a thread, until none goes on. Run k is that of the k-th of them, just started.
/// Gives the value and the runs as they are then; the error is being out of memory.
pub fn run<
    P: Program + Sync,
    M: Attempts<P> + Send,
    R: RankRun<Of = P> + Send,
    W: Threads + Wait + Sync,
    G: Gate + Sync,
>(
    rt: &W,
    alloc: Global,
    value: M,
    ranks: &[u8],
    runs: Vec<R>,
    may_rest: bool,
    gate: &G,
) -> Result<(M, Vec<R>), AllocError>
    requires few { (0 < length ranks.now) × (length ranks.now ≤ MOST_RANKS) }
    requires entries { M.entries value ≡ [] }
    requires seated { AreSeated M.reading (M.frame value) ranks.now }
    requires runs { AreRunsAfter M.reading R.standing (M.frame value) ranks.now [] runs.items }
    ensures frame { IfOk result (λ r. M.frame r.0 ≡ M.frame value) }
    ensures runs { IfOk result (λ r. AreRunsAfter M.reading R.standing (M.frame value) ranks.now (M.entries r.0) r.1.items) }
{
    let (lock, seats) = TurnLock::new(alloc, value, ranks.len() as u32)?;
    let mut workers = workers_of(alloc, &lock, ranks, seats, runs)?;
    make_rounds(rt, &lock, ranks, may_rest, gate, &mut workers);
    let (seats, runs) = seats_and_runs(alloc, &lock, ranks, workers)?;
    Ok((lock.close(seats), runs))
}

/// A worker for each rank, from the last one down.
fn workers_of<P: Program, M: Attempts<P>, R: RankRun<Of = P>>(
    alloc: Global,
    lock: &TurnLock<M>,
    ranks: &[u8],
    mut seats: Vec<Seat<M>>,
    mut runs: Vec<R>,
) -> Result<Vec<Worker<M, R>>, AllocError>
    requires few { length ranks.now ≤ MOST_RANKS }
    requires seats { (lock.now.seats ≡ length ranks.now) × AreFresh lock.now seats.items }
    requires seated { (f : M.Frame) → HasFrame lock.now f → AreSeated M.reading f ranks.now }
    requires runs { (f : M.Frame) → HasFrame lock.now f → AreRunsAfter M.reading R.standing f ranks.now [] runs.items }
    requires as_many { length runs.items ≡ length ranks.now }
    ensures count { IfOk result (λ v. length v.items ≡ length ranks.now) }
    ensures workers { IfOk result (λ v. AreWorkers M.reading R.standing lock.now ranks.now v.items) }
{
    let mut workers = Vec::with_capacity(alloc, seats.len())?;
    while let Some(seat) = seats.pop() {
        let Some(run) = runs.pop() else {
            unreachable!()
        };
        workers.push(Worker {
            seat,
            run,
            rank: ranks[seats.len()],
            calls: 0,
            looks: Looks::new(),
            patience: Patience::new(),
            has_passed: false,
            has_moved: false,
            is_done: false,
            is_short: false,
        })?;
    }
    Ok(workers)
}

/// Rounds until one has no event, each rank is done, or there is no memory; or until ranks did not start in two of them, one after the
/// other: the system gives no threads then, and what is left is made faster on one.
fn make_rounds<
    P: Program + Sync,
    M: Attempts<P> + Send,
    R: RankRun<Of = P> + Send,
    W: Threads + Wait + Sync,
    G: Gate + Sync,
>(
    rt: &W,
    lock: &TurnLock<M>,
    ranks: &[u8],
    may_rest: bool,
    gate: &G,
    workers: &mut Vec<Worker<M, R>>,
)
    requires some { 0 < length ranks.now }
    requires count { length workers.old.items ≡ length ranks.now }
    requires workers { AreWorkers M.reading R.standing lock.now ranks.now workers.old.items }
    ensures count { length workers.new.items ≡ length ranks.now }
    ensures workers { AreWorkers M.reading R.standing lock.now ranks.now workers.new.items }
{
    let processors = thread::available_parallelism(rt).map_or(1, |count| count.get());
    let bell = Bell::new(ranks.len(), processors, may_rest);
    let mut is_late = false;
    for _ in rt.forever() {
        let was_late = is_late;
        bell.begin_round();
        make_round(rt, lock, &bell, gate, workers.as_mut_slice());
        is_late = bell.was_late();
        if !goes_on(workers.as_slice(), was_late && is_late) {
            return;
        }
    }
    unreachable!()
}

/// Lets each worker work on a thread of its own, where the system gives one, and waits for all. Where it gives none the caller
/// does that work itself.
fn make_round<
    P: Program + Sync,
    M: Attempts<P> + Send,
    R: RankRun<Of = P> + Send,
    W: Threads + Wait + Sync,
    G: Gate + Sync,
>(rt: &W, lock: &TurnLock<M>, bell: &Bell, gate: &G, workers: &mut [Worker<M, R>])
    requires { (0 < length workers.old) × All (λ p. CanWork M.reading R.standing lock.now p) workers.old }
    ensures { (k : ℕ) (d : Worker M R M.Entry M.Frame) → k < length workers.old → HasWorked M.reading R.standing lock.now (slice_index_or workers.old k d) (slice_index_or workers.new k d) }
{
    let threads = workers.len();
    thread::for_each_mut(
        rt,
        workers,
        threads,
        &|_, worker| work(rt, lock, bell, gate, worker),
    );
}

/// Whether a further round is of use: there is memory, a rank is not done, the last round had an event, and ranks start in time. No
/// clause rests on it.
fn goes_on<M: Ledger, R>(workers: &[Worker<M, R>], is_late: bool) -> bool {
    let mut is_live = false;
    let mut has_moved = false;
    for worker in workers {
        if worker.is_short {
            return false;
        }
        is_live = is_live || !worker.is_done;
        has_moved = has_moved || worker.has_moved;
    }
    is_live && has_moved && !is_late
}

/// The seats and the runs of the workers, in the order of the ranks. The error is that there was no memory for one of them.
fn seats_and_runs<P: Program, M: Attempts<P>, R: RankRun<Of = P>>(
    alloc: Global,
    lock: &TurnLock<M>,
    ranks: &[u8],
    mut workers: Vec<Worker<M, R>>,
) -> Result<(Vec<Seat<M>>, Vec<R>), AllocError>
    requires count { (lock.now.seats ≡ length ranks.now) × (length workers.items ≡ length ranks.now) }
    requires workers { AreWorkers M.reading R.standing lock.now ranks.now workers.items }
    ensures idle { IfOk result (λ r. AllIdle lock.now r.0.items) }
    ensures runs { IfOk result (λ r. AreBeside M.reading R.standing lock.now ranks.now r.0.items r.1.items) }
{
    let mut seats = Vec::with_capacity(alloc, workers.len())?;
    let mut runs = Vec::with_capacity(alloc, workers.len())?;
    while let Some(worker) = workers.pop() {
        let Worker {
            seat,
            run,
            is_short,
            ..
        } = worker;
        if is_short {
            return Err(AllocError);
        }
        seats.push(seat)?;
        runs.push(run)?;
    }
    Ok((seats, runs))
}
