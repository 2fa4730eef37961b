//! Logs replayed on threads, as on one.
use crate::starting::{program_of, read, replay};
use rank_threads::OpenGate;
use srr_replay::serial::replay_serial;
use std::alloc::Global;
use std::sync::Wait;
use std::thread::Threads;
use wiz_task::ranks::start_group;
use wiz_trace::trace::trace_text;

/// Rank 0 sends a 7, which rank 1 receives and prints.
const FIRST: &[u8] =
    b"srr 1\nranks 2\ngroup 0 1\nprogram 209\nint main(void){int r,x=7;MPI_Comm_rank(MPI_COMM_WORLD,&r);if(r==0)MPI_Send(&x,1,MPI_INT,1,5,MPI_COMM_WORLD);if(r==1){x=0;MPI_Recv(&x,1,MPI_INT,0,5,MPI_COMM_WORLD,MPI_STATUS_IGNORE);printf(\"%d\\n\",x);}return 0;}\nrank 0 2\ns\nz\nrank 1 3\np\nt 0=0.0\nz\nend\n";

/// The first log, but its program sends to rank 0.
const DIVERGED: &[u8] =
    b"srr 1\nranks 2\ngroup 0 1\nprogram 209\nint main(void){int r,x=7;MPI_Comm_rank(MPI_COMM_WORLD,&r);if(r==0)MPI_Send(&x,1,MPI_INT,0,5,MPI_COMM_WORLD);if(r==1){x=0;MPI_Recv(&x,1,MPI_INT,0,5,MPI_COMM_WORLD,MPI_STATUS_IGNORE);printf(\"%d\\n\",x);}return 0;}\nrank 0 2\ns\nz\nrank 1 3\np\nt 0=0.0\nz\nend\n";

/// Two ranks that both receive before they send.
const CYCLE: &[u8] =
    b"srr 1\nranks 2\ngroup 0 1\nprogram 292\nint main(void){int r,x=0;MPI_Comm_rank(MPI_COMM_WORLD,&r);if(r==0){MPI_Recv(&x,1,MPI_INT,1,5,MPI_COMM_WORLD,MPI_STATUS_IGNORE);MPI_Send(&x,1,MPI_INT,1,5,MPI_COMM_WORLD);}if(r==1){MPI_Recv(&x,1,MPI_INT,0,5,MPI_COMM_WORLD,MPI_STATUS_IGNORE);MPI_Send(&x,1,MPI_INT,0,5,MPI_COMM_WORLD);}return 0;}\nrank 0 4\np\nt 0=1.1\ns\nz\nrank 1 4\np\nt 0=0.1\ns\nz\nend\n";

/// A log by its name, a breakpoint, and the trace.
type Row<'a> = (&'a str, &'a [u8], Option<(u8, u32)>, &'a [u8]);

static ROWS: [Row<'static>; 5] = [
    (
        "the first log",
        FIRST,
        None,
        b"rank 0\n0 send comm=0 to=1 tag=5 data=7 -> done\n1 end -> done\noutput 0\n\nended\nrank 1\n0 post comm=0 from=0 tag=5 room=1 -> done\n1 take all 0 -> took 0=0.0 tag=5 data=7\n2 end -> done\noutput 2\n7\n\nended\n",
    ),
    (
        "a stop before rank 0's first call",
        FIRST,
        Some((0, 0)),
        b"rank 0\noutput 0\n\nbreak\nvar 0 r 0\nvar 0 x 7\nrank 1\n0 post comm=0 from=0 tag=5 room=1 -> done\noutput 0\n\nstarved 0.0\n",
    ),
    (
        "a stop before rank 1's second call",
        FIRST,
        Some((1, 1)),
        b"rank 0\n0 send comm=0 to=1 tag=5 data=7 -> done\n1 end -> done\noutput 0\n\nended\nrank 1\n0 post comm=0 from=0 tag=5 room=1 -> done\noutput 0\n\nbreak\nvar 0 r 1\nvar 0 x 0\n",
    ),
    (
        "a log that diverges",
        DIVERGED,
        None,
        b"rank 0\n0 send comm=0 to=0 tag=5 data=7 -> done\n1 end -> done\noutput 0\n\nended\nrank 1\n0 post comm=0 from=0 tag=5 room=1 -> done\noutput 0\n\ndiverged call 1 entry t 0=0.0 made take all 0 found 0.0 send comm=0 to=0 tag=5 data=7\n",
    ),
    (
        "a cycle",
        CYCLE,
        None,
        b"rank 0\n0 post comm=0 from=1 tag=5 room=1 -> done\noutput 0\n\nstarved 1.1\nrank 1\n0 post comm=0 from=0 tag=5 room=1 -> done\noutput 0\n\nstarved 0.1\n",
    ),
];

#[test]
fn logs_have_their_traces(rt: HostRuntime) {
    for (name, log, stop, trace) in &ROWS {
        assert!(&rt; traces(&rt, log, *stop, trace), "{name}");
        assert!(&rt; traces_on_one(rt.alloc(), log, *stop, trace), "{name}");
    }
}

/// Whether a replay on threads has this trace.
fn traces<W: Threads + Wait + Sync + AllocGlobal>(
    rt: &W,
    log: &[u8],
    stop: Option<(u8, u32)>,
    trace: &[u8],
) -> bool {
    let alloc = rt.alloc();
    let Some(log) = read(alloc, log) else {
        return false;
    };
    let Some(program) = program_of(alloc, log.program.as_slice()) else {
        return false;
    };
    let Ok(replayed) = replay(rt, &program, &log, stop, &OpenGate) else {
        return false;
    };
    match trace_text(alloc, &replayed) {
        Ok(text) => text.as_slice() == trace,
        Err(_) => false,
    }
}

/// Whether a replay on one thread has this trace.
fn traces_on_one(alloc: Global, log: &[u8], stop: Option<(u8, u32)>, trace: &[u8]) -> bool {
    let Some(log) = read(alloc, log) else {
        return false;
    };
    let Some(program) = program_of(alloc, log.program.as_slice()) else {
        return false;
    };
    let Ok(runs) = start_group(alloc, &program, &log) else {
        return false;
    };
    let Ok(replayed) = replay_serial(alloc, &program, &log, runs, stop) else {
        return false;
    };
    match trace_text(alloc, &replayed) {
        Ok(text) => text.as_slice() == trace,
        Err(_) => false,
    }
}
