//! The search of what is run.
ghost use Rattle.std.specs.Prelude.{◌≡◌, ◌<◌, All, IfOk, List};
ghost use Rattle.std.specs.List.{AllZip};
ghost use Rattle.c_program.specs.View.{pure_program};
ghost use Rattle.c_program.specs.Program.{next_of};
ghost use Rattle.explore.specs.declared.found.FoundOutcome.{FoundOutcome};
ghost use Rattle.group_plan.specs.Plans.{number_of_ranks};
ghost use Rattle.mpi_call.specs.declared.call.Halt.TheVariants.{Stuck};
ghost use Rattle.mpi_call.specs.Lists.{IsIn};
ghost use Rattle.picked_runs.specs.Turns.{IsRunByTurns};
ghost use Rattle.run_model.specs.declared.ending.Ending.TheVariants.{Halted};
ghost use Rattle.run_model.specs.declared.event.Event.{Event};
ghost use Rattle.wiz_searches.specs.Explorations.{IsWaiting, waits_of};
ghost use Rattle.wiz_searches.specs.inside.Exploring.{IsFoundOf, IsSearchOf};
ghost use Rattle.wiz_task.specs.inside.Recording.{CanRun};

use crate::exploring::start::Starter;
use c_program::CProgram;
use explanation_text::waits::waiting_text;
use explore::course::{SearchLimits, Setting};
use explore::found::{Explored, FoundOutcome};
use explore::search::explore;
use explore::watch::Watcher;
use mpi_call::call::Halt;
use picked_runs::turn::Turn;
use run_model::ending::Ending;
use run_model::lists::Outputs;
use srr_record::record_serial;
use std::alloc::{AllocError, Global};
use wait_graph::stuck::graph;
use wiz_base::Bytes;
use wiz_task::ranks::{RunningRank, start_all};
use wiz_task::ready::Ready;

/// What a search found, and for each outcome the text of the ranks that wait in it.
#[derive(Drop)]
pub struct Searched {
    pub explored: Explored,
    pub waits: Outputs,
}

/// The search of what is run: the runs that begin with what its turns make. `watcher` is told on the way how far it is.
pub fn search<W: Watcher>(
    alloc: Global,
    ready: &Ready,
    bounds: SearchLimits,
    watcher: &mut W,
) -> Result<Searched, AllocError>
    requires { CanRun ready.now }
    ensures { IfOk result (IsSearchOf ready.now bounds.polls) }
{
    let starter = Starter::new(&ready.program);
    let setting = Setting {
        alloc,
        program: &ready.program,
        starter: &starter,
        plan: &ready.plan,
        ranks: ready.plan.n(),
        under: ready.turns.as_slice(),
    };
    let explored = explore::<CProgram, RunningRank<'_>, Starter<'_>, W>(&setting, bounds, watcher)?;
    let waits = all_waits(alloc, ready, explored.found.as_slice())?;
    Ok(Searched { explored, waits })
}

/// Of each outcome the text of the ranks that wait.
fn all_waits(alloc: Global, ready: &Ready, listed: &[FoundOutcome]) -> Result<Outputs, AllocError>
    requires ready { CanRun ready.now }
    requires found { (found : FoundOutcome) → IsIn found listed.now → IsFoundOf ready.now found }
    ensures { IfOk result (λ waits. AllZip (IsWaiting (next_of (pure_program ready.now.program)) (number_of_ranks ready.now.plan)) listed.now waits) }
{
    let mut waits = Outputs::new(alloc);
    for found in listed {
        let text = waits_in(alloc, ready, found)?;
        waits.push(text)?;
    }
    Ok(waits)
}

/// The ranks that wait in the run that the recording by an outcome's turns makes, where that is a deadlock.
fn waits_in(alloc: Global, ready: &Ready, found: &FoundOutcome) -> Result<Bytes, AllocError>
    requires ready { CanRun ready.now }
    requires found { IsFoundOf ready.now found.now }
    ensures { IfOk result (IsWaiting (next_of (pure_program ready.now.program)) (number_of_ranks ready.now.plan) found.now) }
{
    match found.outcome.ending() {
        Ending::Halted(Halt::Stuck) => waits_after(alloc, ready, found.turns.as_slice()),
        _ => Ok(Bytes::new(alloc)),
    }
}

/// The ranks that wait in the run that the recording by these turns makes.
fn waits_after(alloc: Global, ready: &Ready, turns: &[Turn]) -> Result<Bytes, AllocError>
    requires ready { CanRun ready.now }
    requires turns { All (λ turn. turn.rank < number_of_ranks ready.now.plan) turns.now }
    ensures { IfOk result (λ text. (run : List Event) × IsRunByTurns (next_of (pure_program ready.now.program)) (number_of_ranks ready.now.plan) turns.now run
        × (text ≡ waits_of (number_of_ranks ready.now.plan) run (Halted Stuck))) }
{
    let ranks = ready.plan.n();
    let runs = start_all(alloc, &ready.program, ranks)?;
    let recording = record_serial(alloc, &ready.program, &[], &ready.plan, runs, turns)?;
    let graph = graph(alloc, ranks, &recording.history)?;
    waiting_text(alloc, ranks, &recording.history, &graph)
}
