//! Programs recorded, and each of their logs replayed by both evaluators.
ghost use Rattle.std.specs.Prelude.{[], IfOk};
ghost use Rattle.srr_replay.specs.Rounds.{IsReplayable, RunAll};

use crate::programs::FIRST_LOG;
use crate::tool::{files, joined};
use c_eval::rank::EvalRank;
use c_program::CProgram;
use c_types::read_program;
use replay_model::replayed::Replayed;
use srr_entry::log::Log;
use srr_log2::read_either::read_either;
use srr_replay::serial::replay_serial;
use std::alloc::{AllocError, Global};
use wiz_base::Bytes;
use wiz_cli::top::wiz_serial;
use wiz_io::{MemorySink, MemoryStore};
use wiz_task::ranks::start_group;
use wiz_trace::trace::trace_text;

/// What stands before and after the statements of each program.
const FRONT: &[u8] =
    b"int main(void){int r,x=0,y=0,f=0;MPI_Status s;MPI_Request q[2];MPI_Comm c;MPI_Comm_rank(MPI_COMM_WORLD,&r);";

const BACK: &[u8] = b"return 0;}";

/// A run a line: its plan and its order (none where it is recorded without), in which `/` ends a line, and the statements of its program. They
/// are those of `rows/runs.toml`, `rows/synchronous.toml` and `rows/completions.toml`.
const RUNS: &str = "\
0 1 2|1|if(r<2)MPI_Send(&r,1,MPI_INT,2,9,MPI_COMM_WORLD);if(r==2){MPI_Recv(&x,1,MPI_INT,MPI_ANY_SOURCE,9,MPI_COMM_WORLD,MPI_STATUS_IGNORE);printf(\"%d\\n\",x);MPI_Recv(&x,1,MPI_INT,MPI_ANY_SOURCE,9,MPI_COMM_WORLD,MPI_STATUS_IGNORE);printf(\"%d\\n\",x);}
0 1 2|1/0/1/2/0/2/2/2/2|if(r<2)MPI_Send(&r,1,MPI_INT,2,9,MPI_COMM_WORLD);if(r==2){MPI_Recv(&x,1,MPI_INT,MPI_ANY_SOURCE,9,MPI_COMM_WORLD,MPI_STATUS_IGNORE);printf(\"%d\\n\",x);MPI_Recv(&x,1,MPI_INT,MPI_ANY_SOURCE,9,MPI_COMM_WORLD,MPI_STATUS_IGNORE);printf(\"%d\\n\",x);}
0 2/1|1|if(r<2)MPI_Send(&r,1,MPI_INT,2,9,MPI_COMM_WORLD);if(r==2){MPI_Recv(&x,1,MPI_INT,MPI_ANY_SOURCE,9,MPI_COMM_WORLD,MPI_STATUS_IGNORE);printf(\"%d\\n\",x);MPI_Recv(&x,1,MPI_INT,MPI_ANY_SOURCE,9,MPI_COMM_WORLD,MPI_STATUS_IGNORE);printf(\"%d\\n\",x);}
0 1|1/1|if(r==0){MPI_Send(&x,1,MPI_INT,1,5,MPI_COMM_WORLD);MPI_Send(&x,1,MPI_INT,1,6,MPI_COMM_WORLD);}if(r==1){MPI_Irecv(&x,1,MPI_INT,MPI_ANY_SOURCE,5,MPI_COMM_WORLD,&q[0]);MPI_Irecv(&y,1,MPI_INT,0,MPI_ANY_TAG,MPI_COMM_WORLD,&q[1]);MPI_Waitall(2,q,MPI_STATUSES_IGNORE);}
0 1||if(r==0){MPI_Send(&x,1,MPI_INT,1,1,MPI_COMM_WORLD);MPI_Send(&x,1,MPI_INT,1,2,MPI_COMM_WORLD);}if(r==1){MPI_Recv(&x,1,MPI_INT,0,2,MPI_COMM_WORLD,MPI_STATUS_IGNORE);MPI_Recv(&x,1,MPI_INT,0,1,MPI_COMM_WORLD,MPI_STATUS_IGNORE);}
0/1||if(r==0)MPI_Send(NULL,0,MPI_INT,1,5,MPI_COMM_WORLD);if(r==1){MPI_Recv(NULL,0,MPI_INT,0,5,MPI_COMM_WORLD,&s);MPI_Get_count(&s,MPI_INT,&x);printf(\"%d\\n\",x);}
0 1||if(r==0){int b[2];MPI_Send(b,2,MPI_INT,1,5,MPI_COMM_WORLD);}if(r==1)MPI_Recv(&x,1,MPI_INT,0,5,MPI_COMM_WORLD,MPI_STATUS_IGNORE);
0 1||MPI_Recv(&x,1,MPI_INT,1-r,5,MPI_COMM_WORLD,MPI_STATUS_IGNORE);MPI_Send(&x,1,MPI_INT,1-r,5,MPI_COMM_WORLD);
0 1|1/1/1/1|if(r==0)MPI_Send(&x,1,MPI_INT,1,5,MPI_COMM_WORLD);if(r==1){MPI_Irecv(&y,1,MPI_INT,0,5,MPI_COMM_WORLD,&q[0]);while(!f)MPI_Test(&q[0],&f,MPI_STATUS_IGNORE);}
0 1|0/0|if(r==0){MPI_Send(&x,1,MPI_INT,1,5,MPI_COMM_WORLD);MPI_Send(&x,1,MPI_INT,1,6,MPI_COMM_WORLD);}if(r==1){MPI_Irecv(&y,1,MPI_INT,0,5,MPI_COMM_WORLD,&q[0]);MPI_Irecv(&f,1,MPI_INT,0,6,MPI_COMM_WORLD,&q[1]);MPI_Waitany(2,q,&x,MPI_STATUS_IGNORE);printf(\"%d\\n\",x);MPI_Waitany(2,q,&x,MPI_STATUS_IGNORE);printf(\"%d\\n\",x);MPI_Waitany(2,q,&x,MPI_STATUS_IGNORE);printf(\"%d\\n\",x);}
0 1|0|if(r==0)MPI_Send(&x,1,MPI_INT,1,3,MPI_COMM_WORLD);if(r==1){MPI_Iprobe(MPI_ANY_SOURCE,MPI_ANY_TAG,MPI_COMM_WORLD,&f,&s);if(f)MPI_Recv(&x,1,MPI_INT,s.MPI_SOURCE,s.MPI_TAG,MPI_COMM_WORLD,MPI_STATUS_IGNORE);}
0/1|0|if(r==0)MPI_Send(&x,1,MPI_INT,1,3,MPI_COMM_WORLD);if(r==1){MPI_Iprobe(MPI_ANY_SOURCE,MPI_ANY_TAG,MPI_COMM_WORLD,&f,&s);if(f)MPI_Recv(&x,1,MPI_INT,s.MPI_SOURCE,s.MPI_TAG,MPI_COMM_WORLD,MPI_STATUS_IGNORE);}
0 1/2||x=5;MPI_Bcast(&x,1,MPI_INT,0,MPI_COMM_WORLD);y=r+1;MPI_Allreduce(&y,&x,1,MPI_INT,MPI_SUM,MPI_COMM_WORLD);
0 1 2||MPI_Comm_split(MPI_COMM_WORLD,r==1?MPI_UNDEFINED:1,0,&c);
0/1/2||MPI_Comm_split(MPI_COMM_WORLD,r==1?MPI_UNDEFINED:1,0,&c);
0 1/2||MPI_Comm_split(MPI_COMM_WORLD,r<2,0,&c);MPI_Comm_rank(c,&y);MPI_Barrier(c);printf(\"%d\\n\",y);
0 1||if(r==0)MPI_Barrier(MPI_COMM_WORLD);if(r==1)MPI_Bcast(&x,1,MPI_INT,0,MPI_COMM_WORLD);
0||x=1/x;
0||MPI_Abort(MPI_COMM_WORLD,3);
0||x=9;MPI_Recv(&x,1,MPI_INT,MPI_PROC_NULL,5,MPI_COMM_WORLD,&s);printf(\"%d %d %d\\n\",s.MPI_SOURCE,s.MPI_TAG,x);
0||MPI_Send(&x,1,MPI_INT,0,5,MPI_COMM_WORLD);MPI_Recv(&y,1,MPI_INT,0,5,MPI_COMM_WORLD,MPI_STATUS_IGNORE);
0 1||if(r<2)MPI_Sendrecv(&r,1,MPI_INT,1-r,3,&x,1,MPI_INT,1-r,3,MPI_COMM_WORLD,MPI_STATUS_IGNORE);printf(\"%d\\n\",x);
0-2|0/0/1/1/1/2 from 1|if(r==0){x=7;MPI_Send(&x,1,MPI_INT,2,9,MPI_COMM_WORLD);MPI_Send(&x,1,MPI_INT,1,5,MPI_COMM_WORLD);}if(r==1){MPI_Recv(&x,1,MPI_INT,0,5,MPI_COMM_WORLD,MPI_STATUS_IGNORE);x=8;MPI_Send(&x,1,MPI_INT,2,9,MPI_COMM_WORLD);}if(r==2){MPI_Recv(&x,1,MPI_INT,MPI_ANY_SOURCE,9,MPI_COMM_WORLD,MPI_STATUS_IGNORE);printf(\"%d\\n\",x);MPI_Recv(&x,1,MPI_INT,MPI_ANY_SOURCE,9,MPI_COMM_WORLD,MPI_STATUS_IGNORE);printf(\"%d\\n\",x);}
0-2|0/0/1/1/1/2 from 1/0/1/2/2/2/2|if(r==0){x=7;MPI_Send(&x,1,MPI_INT,2,9,MPI_COMM_WORLD);MPI_Send(&x,1,MPI_INT,1,5,MPI_COMM_WORLD);}if(r==1){MPI_Recv(&x,1,MPI_INT,0,5,MPI_COMM_WORLD,MPI_STATUS_IGNORE);x=8;MPI_Send(&x,1,MPI_INT,2,9,MPI_COMM_WORLD);}if(r==2){MPI_Recv(&x,1,MPI_INT,MPI_ANY_SOURCE,9,MPI_COMM_WORLD,MPI_STATUS_IGNORE);printf(\"%d\\n\",x);MPI_Recv(&x,1,MPI_INT,MPI_ANY_SOURCE,9,MPI_COMM_WORLD,MPI_STATUS_IGNORE);printf(\"%d\\n\",x);}
0-2|0/2 from 1|if(r==0){x=7;MPI_Send(&x,1,MPI_INT,2,9,MPI_COMM_WORLD);MPI_Send(&x,1,MPI_INT,1,5,MPI_COMM_WORLD);}if(r==1){MPI_Recv(&x,1,MPI_INT,0,5,MPI_COMM_WORLD,MPI_STATUS_IGNORE);x=8;MPI_Send(&x,1,MPI_INT,2,9,MPI_COMM_WORLD);}if(r==2){MPI_Recv(&x,1,MPI_INT,MPI_ANY_SOURCE,9,MPI_COMM_WORLD,MPI_STATUS_IGNORE);printf(\"%d\\n\",x);MPI_Recv(&x,1,MPI_INT,MPI_ANY_SOURCE,9,MPI_COMM_WORLD,MPI_STATUS_IGNORE);printf(\"%d\\n\",x);}
0-2|1/2/0 from 2|if(r>0)MPI_Send(&r,1,MPI_INT,0,9,MPI_COMM_WORLD);if(r==0){MPI_Probe(MPI_ANY_SOURCE,9,MPI_COMM_WORLD,&s);printf(\"%d\\n\",s.MPI_SOURCE);MPI_Recv(&x,1,MPI_INT,s.MPI_SOURCE,9,MPI_COMM_WORLD,MPI_STATUS_IGNORE);MPI_Recv(&y,1,MPI_INT,MPI_ANY_SOURCE,9,MPI_COMM_WORLD,MPI_STATUS_IGNORE);printf(\"%d %d\\n\",x,y);}
0 1|0/0/1/1/0 index 1|if(r==0){MPI_Irecv(&x,1,MPI_INT,1,1,MPI_COMM_WORLD,&q[0]);MPI_Irecv(&y,1,MPI_INT,1,2,MPI_COMM_WORLD,&q[1]);MPI_Waitany(2,q,&f,MPI_STATUS_IGNORE);printf(\"%d\\n\",f);MPI_Waitany(2,q,&f,MPI_STATUS_IGNORE);printf(\"%d\\n\",f);}if(r==1){MPI_Send(&x,1,MPI_INT,0,1,MPI_COMM_WORLD);MPI_Send(&x,1,MPI_INT,0,2,MPI_COMM_WORLD);}
0 1||if(r<2){MPI_Send(&r,1,MPI_INT,1-r,5,MPI_COMM_WORLD);MPI_Recv(&x,1,MPI_INT,1-r,5,MPI_COMM_WORLD,MPI_STATUS_IGNORE);}
0 1||if(r<2){MPI_Ssend(&r,1,MPI_INT,1-r,5,MPI_COMM_WORLD);MPI_Recv(&x,1,MPI_INT,1-r,5,MPI_COMM_WORLD,MPI_STATUS_IGNORE);}
0 1||x=7;if(r==0)MPI_Ssend(&x,1,MPI_INT,1,5,MPI_COMM_WORLD);if(r==1){x=0;MPI_Recv(&x,1,MPI_INT,0,5,MPI_COMM_WORLD,MPI_STATUS_IGNORE);printf(\"%d\\n\",x);}
0 1|0/0|if(r==0){MPI_Issend(&x,1,MPI_INT,1,5,MPI_COMM_WORLD,&q[0]);MPI_Test(&q[0],&f,MPI_STATUS_IGNORE);MPI_Wait(&q[0],MPI_STATUS_IGNORE);}if(r==1)MPI_Recv(&x,1,MPI_INT,0,5,MPI_COMM_WORLD,MPI_STATUS_IGNORE);
0-2||if(r==0){int a[3];MPI_Request p[3];MPI_Irecv(&y,1,MPI_INT,2,9,MPI_COMM_WORLD,&p[2]);MPI_Irecv(a,1,MPI_INT,MPI_ANY_SOURCE,1,MPI_COMM_WORLD,p);MPI_Waitany(3,p,&x,&s);printf(\"%d %d %d %d\\n\",x,s.MPI_SOURCE,s.MPI_TAG,y);}if(r==2)MPI_Send(&r,1,MPI_INT,0,9,MPI_COMM_WORLD);
0-2|0/0|MPI_Request p[3];if(r==0){MPI_Irecv(&y,1,MPI_INT,2,9,MPI_COMM_WORLD,&p[2]);MPI_Testany(3,p,&x,&x,MPI_STATUS_IGNORE);printf(\"%d\\n\",x);}if(r==2)MPI_Send(&r,1,MPI_INT,0,9,MPI_COMM_WORLD);MPI_Barrier(MPI_COMM_WORLD);if(r==0){MPI_Testany(3,p,&x,&x,MPI_STATUS_IGNORE);printf(\"%d %d\\n\",x,y);MPI_Testany(3,p,&x,&x,MPI_STATUS_IGNORE);printf(\"%d\\n\",x);}
0-2|0/0|MPI_Request p[3];MPI_Status t[3];int a[3];if(r==0){MPI_Irecv(&y,1,MPI_INT,2,9,MPI_COMM_WORLD,&p[2]);MPI_Testsome(3,p,a,a,t);printf(\"%d\\n\",a[0]);}if(r==2)MPI_Send(&r,1,MPI_INT,0,9,MPI_COMM_WORLD);MPI_Barrier(MPI_COMM_WORLD);if(r==0){MPI_Testsome(3,p,a,a,t);printf(\"%d %d\\n\",a[0],y);}
0||MPI_Request p;{int z;MPI_Irecv(&z,1,MPI_INT,0,5,MPI_COMM_WORLD,&p);}MPI_Send(&x,1,MPI_INT,0,5,MPI_COMM_WORLD);MPI_Wait(&p,MPI_STATUS_IGNORE);
";

const SERIAL: &[&str] = &["record", "P", "Q", "A", "--serial"];

const ORDERED: &[&str] = &["record", "P", "Q", "A", "--order", "F"];

/// The logs of at most three groups.
const LOGS: [&str; 3] = ["A.0.srr", "A.1.srr", "A.2.srr"];

/// For each rank of the log's group a run by the evaluator that begins again at each call, before the first one.
fn start_evaluators<'a>(
    alloc: Global,
    program: &'a CProgram,
    log: &Log,
) -> Result<Vec<EvalRank<'a>>, AllocError>
    requires { IsReplayable log.now }
    ensures { IfOk result (λ runs. RunAll (λ run. run) program.now log.now [] runs.items) }
{
    let mut runs = Vec::new(alloc);
    for rank in log.group.as_slice() {
        runs.push(EvalRank::start(alloc, program, log.ranks, *rank)?)?;
    }
    Ok(runs)
}

/// The replay of a log's group by the ranks that the tool runs; a rank stops before the call that `stop` names.
fn replay_suspended(
    alloc: Global,
    program: &CProgram,
    log: &Log,
    stop: Option<(u8, u32)>,
) -> Result<Replayed, AllocError>
    requires { IsReplayable log.now }
{
    let runs = start_group(alloc, program, log)?;
    replay_serial(alloc, program, log, runs, stop)
}

/// The same by the evaluator that begins again at each call.
fn replay_again(
    alloc: Global,
    program: &CProgram,
    log: &Log,
    stop: Option<(u8, u32)>,
) -> Result<Replayed, AllocError>
    requires { IsReplayable log.now }
{
    let runs = start_evaluators(alloc, program, log)?;
    replay_serial(alloc, program, log, runs, stop)
}

/// The trace of a log's replay by both evaluators, where it is the same.
fn trace_of_both(alloc: Global, log: &[u8], stop: Option<(u8, u32)>) -> Option<Bytes> {
    if log.len() > 134_217_728 {
        return None;
    }
    let Ok(log) = read_either(alloc, log) else {
        return None;
    };
    let program = read_program(alloc, log.program.as_slice()).ok()?;
    let suspended = replay_suspended(alloc, &program, &log, stop).ok()?;
    let again = replay_again(alloc, &program, &log, stop).ok()?;
    let trace = trace_text(alloc, &suspended).ok()?;
    let other = trace_text(alloc, &again).ok()?;
    if trace.as_slice() == other.as_slice() {
        Some(trace)
    } else {
        None
    }
}

/// A text whose lines end in `/`.
fn unfolded(alloc: Global, text: &str) -> Option<Bytes> {
    let mut lines = Bytes::new(alloc);
    for byte in text.as_bytes() {
        let byte = if *byte == b'/' { b'\n' } else { *byte };
        lines.push(byte).ok()?;
    }
    Some(lines)
}

/// Records the run of a line.
fn recorded(alloc: Global, line: &str) -> Option<MemoryStore> {
    let (plan, rest) = line.split_once('|')?;
    let (order, body) = rest.split_once('|')?;
    let program = joined(alloc, &[FRONT, body.as_bytes(), BACK])?;
    let plan = unfolded(alloc, plan)?;
    let turns = unfolded(alloc, order)?;
    let named: [(&str, &[u8]); 3] = [
        ("P", program.as_slice()),
        ("Q", plan.as_slice()),
        ("F", turns.as_slice()),
    ];
    let mut store = files(alloc, &named)?;
    let words = if order.is_empty() { SERIAL } else { ORDERED };
    let mut out = MemorySink::new(alloc);
    wiz_serial(alloc, words, &mut store, &mut out);
    Some(store)
}

/// Whether a log, where there is one, is replayed with status 0, and with the trace that both evaluators have.
fn replays(alloc: Global, store: &mut MemoryStore, name: &str) -> Option<bool> {
    let Some(log) = store.file(name) else {
        return Some(true);
    };
    let trace = trace_of_both(alloc, log.as_slice(), None)?;
    let mut out = MemorySink::new(alloc);
    let report = wiz_serial(alloc, &["replay", name, "--serial"], store, &mut out);
    Some(report.status == 0 && out.bytes() == trace.as_slice())
}

/// Whether each log of a line's run is replayed so.
fn is_replayed_alike(alloc: Global, line: &str) -> Option<bool> {
    let mut store = recorded(alloc, line)?;
    let mut so = store.file("A.0.srr").is_some();
    for name in LOGS {
        so = so && replays(alloc, &mut store, name)?;
    }
    Some(so)
}

#[test]
fn both_evaluators_have_one_trace(rt: HostRuntime) {
    for line in RUNS.lines() {
        assert_eq!(rt; is_replayed_alike(rt.alloc(), line), Some(true), "{line}");
    }
}

/// Whether a replay of the first log with this breakpoint has the trace that the tool prints, by both evaluators.
fn stops_alike(alloc: Global, stop: (u8, u32), words: &str) -> Option<bool> {
    let trace = trace_of_both(alloc, FIRST_LOG, Some(stop))?;
    let mut store = files(alloc, &[("L", FIRST_LOG)])?;
    let mut out = MemorySink::new(alloc);
    let words: &[&str] = &["replay", "L", "--break", words, "--serial"];
    let report = wiz_serial(alloc, words, &mut store, &mut out);
    Some(report.status == 0 && out.bytes() == trace.as_slice())
}

#[test]
fn both_evaluators_stop_at_a_breakpoint(rt: HostRuntime) {
    assert_eq!(rt; stops_alike(rt.alloc(), (0, 0), "0:0"), Some(true));
    assert_eq!(rt; stops_alike(rt.alloc(), (1, 1), "1:1"), Some(true));
    assert_eq!(rt; stops_alike(rt.alloc(), (7, 0), "7:0"), Some(true));
}
