//! Recordings and replays on threads, from programs and logs.
ghost use Rattle.std.specs.Prelude.{IfSome};
ghost use Rattle.srr_replay.specs.Rounds.{IsReplayable};

use c_program::CProgram;
use c_types::read_program;
use group_plan::Plan;
use rank_threads::{Gate, record_threads, replay_threads};
use replay_model::replayed::Replayed;
use srr_entry::log::Log;
use srr_log::read_log::read_log;
use srr_log::write_log::write_log;
use srr_record::Recording;
use std::alloc::{AllocError, Global};
use std::sync::Wait;
use std::thread::Threads;
use wiz_base::bytes::Bytes;
use wiz_task::ranks::{start_all, start_group};

/// The program of this text.
pub fn program_of(alloc: Global, text: &[u8]) -> Option<CProgram> {
    if text.len() > 65_536 {
        return None;
    }
    match read_program(alloc, text) {
        Ok(program) => Some(program),
        Err(_) => None,
    }
}

/// A program and its text.
#[derive(Clone, Copy)]
pub struct Source<'a> {
    pub program: &'a CProgram,
    pub text: &'a [u8],
}

/// The program recorded on threads.
pub fn record<W: Threads + Wait + Sync + AllocGlobal, G: Gate + Sync>(
    rt: &W,
    source: Source<'_>,
    plan: &Plan,
    gate: &G,
) -> Result<Recording, AllocError> {
    let alloc = rt.alloc();
    let runs = start_all(alloc, source.program, plan.n())?;
    record_threads(rt, alloc, source.program, source.text, plan, runs, gate)
}

/// A log's group replayed on threads.
pub fn replay<W: Threads + Wait + Sync + AllocGlobal, G: Gate + Sync>(
    rt: &W,
    program: &CProgram,
    log: &Log,
    stop: Option<(u8, u32)>,
    gate: &G,
) -> Result<Replayed, AllocError>
    requires { IsReplayable log.now }
{
    let alloc = rt.alloc();
    let runs = start_group(alloc, program, log)?;
    replay_threads(rt, alloc, program, log, runs, stop, gate)
}

/// A log as it is read from its text.
pub fn read_back(alloc: Global, log: &Log) -> Option<Log>
    ensures { IfSome result (λ read. IsReplayable read) }
{
    if log.lists.as_slice().len() != log.group.as_slice().len() {
        return None;
    }
    let text = write_log(alloc, log).ok()?;
    read(alloc, text.as_slice())
}

/// The log of this text.
pub fn read(alloc: Global, text: &[u8]) -> Option<Log>
    ensures { IfSome result (λ read. IsReplayable read) }
{
    if text.len() >= 1_000_000_000 {
        return None;
    }
    match read_log(alloc, text) {
        Ok(log) => Some(log),
        Err(_) => None,
    }
}

/// Whether these are the outputs.
pub fn are(outputs: &[Bytes], wanted: &[&[u8]]) -> bool {
    if outputs.len() != wanted.len() {
        return false;
    }
    for (output, text) in outputs.iter().zip(wanted.iter()) {
        if output.as_slice() != *text {
            return false;
        }
    }
    true
}
