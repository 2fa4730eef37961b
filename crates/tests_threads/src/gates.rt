//! A recording and a replay in which two ranks meet at the gate, which they can only on two threads.
use crate::starting::{Source, are, program_of, read_back, record, replay};
use c_program::CProgram;
use group_plan::read_plan;
use rank_threads::Gate;
use srr_record::Recording;
use std::sync::Wait;
use std::sync::atomic::{AtomicBool, Ordering};
use std::thread;
use std::thread::Threads;

/// Each rank prints its number. Ranks 0 and 1 then send each other an int and receive it; rank 2 ends at once.
const PROGRAM: &[u8] =
    b"int main(void){int r,x=0;MPI_Comm_rank(MPI_COMM_WORLD,&r);printf(\"%d\\n\",r);if(r<2){MPI_Send(&r,1,MPI_INT,1-r,5,MPI_COMM_WORLD);MPI_Recv(&x,1,MPI_INT,1-r,5,MPI_COMM_WORLD,MPI_STATUS_IGNORE);}return 0;}";

/// How often a rank looks whether the other one came.
const LOOKS: u32 = 50_000_000;

/// A gate that holds ranks 0 and 1 at their first calls until both came.
#[derive(Drop)]
struct Meeting {
    zeroth: AtomicBool,
    first: AtomicBool,
    has_failed: AtomicBool,
}

impl Meeting {
    fn new() -> Meeting {
        Meeting {
            zeroth: AtomicBool::new(false),
            first: AtomicBool::new(false),
            has_failed: AtomicBool::new(false),
        }
    }

    /// Tells the other rank that this one came, and waits for it.
    fn meet(&self, own: &AtomicBool, other: &AtomicBool) {
        own.store(true, Ordering::SeqCst);
        for _ in 0..LOOKS {
            if other.load(Ordering::SeqCst) {
                return;
            }
            thread::yield_now();
        }
        self.has_failed.store(true, Ordering::SeqCst);
    }

    /// Whether both came, and neither waited in vain.
    fn was_held(&self) -> bool {
        self.zeroth.load(Ordering::SeqCst)
            && self.first.load(Ordering::SeqCst)
            && !self.has_failed.load(Ordering::SeqCst)
    }
}

impl Gate for Meeting {
    fn pass(&self, rank: u8, call_number: u32) {
        match (rank, call_number) {
            (0, 0) => self.meet(&self.zeroth, &self.first),
            (1, 0) => self.meet(&self.first, &self.zeroth),
            _ => {}
        }
    }
}

const OUTPUTS: &[&[u8]] = &[b"0\n", b"1\n", b"2\n"];

#[test]
fn two_ranks_meet_in_a_recording_and_in_its_replay(rt: HostRuntime) {
    let alloc = rt.alloc();
    let program = program_of(alloc, PROGRAM).expect(&rt, "a program");
    let plan = read_plan(alloc, b"0-2").expect(&rt, "a plan");
    let source = Source {
        program: &program,
        text: PROGRAM,
    };
    let gate = Meeting::new();
    let recording = record(&rt, source, &plan, &gate).expect(&rt, "a recording");
    assert!(&rt; gate.was_held());
    assert!(&rt; are(recording.outputs.as_slice(), OUTPUTS));
    assert!(&rt; meet_again(&rt, &program, &recording));
}

/// Whether the ranks meet too where the one log is replayed, and print the same.
fn meet_again<W: Threads + Wait + Sync + AllocGlobal>(
    rt: &W,
    program: &CProgram,
    recording: &Recording,
) -> bool {
    let [log] = recording.logs.as_slice() else {
        return false;
    };
    let Some(log) = read_back(rt.alloc(), log) else {
        return false;
    };
    let gate = Meeting::new();
    match replay(rt, program, &log, None, &gate) {
        Ok(replayed) => gate.was_held() && are(replayed.outputs.as_slice(), OUTPUTS),
        Err(_) => false,
    }
}
