//! An ordinary program recorded on threads, and its groups replayed on threads.
use crate::starting::{Source, are, program_of, read_back, record, replay};
use c_program::CProgram;
use explore::watch::Silent;
use group_plan::read_plan;
use rank_threads::Gate;
use run_model::ending::Ending;
use srr_entry::log::Log;
use std::sync::Wait;
use std::sync::atomic::{AtomicU64, Ordering};
use std::thread::Threads;
use wiz_cli::top::wiz;
use wiz_io::{MemorySink, MemoryStore};

/// Each rank but 0 sends a block of its number, and rank 0 adds them up. (`examples/blocks` has the same with larger blocks.)
const PROGRAM: &[u8] = b"#include <stdio.h>
#include <mpi.h>
#define N 1024
int main(int argc, char **argv) {
  int rank, size, i, sum = 0, big[N]; /* one block */
  MPI_Status st;
  MPI_Init(&argc, &argv);
  MPI_Comm_rank(MPI_COMM_WORLD, &rank);
  MPI_Comm_size(MPI_COMM_WORLD, &size);
  for (i = 0; i < N; i++) big[i] = rank;
  if (rank == 0) {
    for (i = 1; i < size; i++) {
      MPI_Recv(big, N, MPI_INT, MPI_ANY_SOURCE, 1, MPI_COMM_WORLD, &st);
      sum += big[N - 1] * st.MPI_SOURCE;
    }
    printf(\"sum %d\\n\", sum);
  } else {
    MPI_Send(big, N, MPI_INT, 0, 1, MPI_COMM_WORLD);
  }
  MPI_Finalize();
  return 0;
}
";

/// The groups of its ranks.
const PLAN: &[u8] = b"0-2\n3-5\n6 7 # rest\n";

/// What the ranks print.
const OUTPUTS: &[&[u8]] = &[b"sum 140\n", b"", b"", b"", b"", b"", b"", b""];

/// The same by group.
const PRINTED: [(&str, &[&[u8]]); 3] = [
    ("ranks 0 to 2", &[b"sum 140\n", b"", b""]),
    ("ranks 3 to 5", &[b"", b"", b""]),
    ("ranks 6 and 7", &[b"", b""]),
];

/// How many calls the ranks of the three groups make.
const CALLS: u64 = 29;

/// What a check of the run prints.
const CHECKED: &[u8] =
    b"rank 0 group 0 calls 15 output 8 same\nrank 1 group 0 calls 2 output 0 same\nrank 2 group 0 calls 2 output 0 same\nrank 3 group 1 calls 2 output 0 same\nrank 4 group 1 calls 2 output 0 same\nrank 5 group 1 calls 2 output 0 same\nrank 6 group 2 calls 2 output 0 same\nrank 7 group 2 calls 2 output 0 same\nfinished\n";

/// A gate that counts its passes.
#[derive(Drop)]
struct Counter {
    passes: AtomicU64,
}

impl Gate for Counter {
    fn pass(&self, _rank: u8, _call_number: u32) {
        let _ = self.passes.fetch_add(1, Ordering::SeqCst);
    }
}

#[test]
fn a_program_is_recorded_and_replayed_by_groups(rt: HostRuntime) {
    let alloc = rt.alloc();
    let program = program_of(alloc, PROGRAM).expect(&rt, "a program");
    let plan = read_plan(alloc, PLAN).expect(&rt, "a plan");
    let source = Source {
        program: &program,
        text: PROGRAM,
    };
    let gate = Counter {
        passes: AtomicU64::new(0),
    };
    let recording = record(&rt, source, &plan, &gate).expect(&rt, "a recording");
    assert!(&rt; recording.ending == Ending::Finished);
    assert!(&rt; are(recording.outputs.as_slice(), OUTPUTS));
    assert!(&rt; gate.passes.load(Ordering::SeqCst) == CALLS);
    for (log, (name, printed)) in recording.logs.as_slice().iter().zip(PRINTED.iter()) {
        assert!(&rt; prints(&rt, &program, log, printed, &gate), "{name}");
    }
    assert!(&rt; gate.passes.load(Ordering::SeqCst) == 2 * CALLS);
}

/// Whether the ranks of a log's group print this where they are replayed.
fn prints<W: Threads + Wait + Sync + AllocGlobal>(
    rt: &W,
    program: &CProgram,
    log: &Log,
    printed: &[&[u8]],
    gate: &Counter,
) -> bool {
    let Some(log) = read_back(rt.alloc(), log) else {
        return false;
    };
    match replay(rt, program, &log, None, gate) {
        Ok(replayed) => are(replayed.outputs.as_slice(), printed),
        Err(_) => false,
    }
}

/// Each call passes the gate when the run is recorded, and again when its group is replayed.
#[test]
fn a_check_passes_the_gate_twice_at_each_call(rt: HostRuntime) {
    let mut store = MemoryStore::new(rt.alloc());
    store.add("P", PROGRAM).expect(&rt, "a program");
    store.add("Q", PLAN).expect(&rt, "a plan");
    let mut out = MemorySink::new(rt.alloc());
    let gate = Counter {
        passes: AtomicU64::new(0),
    };
    let words: &[&str] = &["check", "P", "Q"];
    let report = wiz(
        &rt,
        rt.alloc(),
        words,
        &mut store,
        &mut out,
        &gate,
        &mut Silent,
    );
    assert!(&rt; report.status == 0 && out.bytes() == CHECKED);
    assert!(&rt; gate.passes.load(Ordering::SeqCst) == 2 * CALLS);
}
