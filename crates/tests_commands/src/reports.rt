//! What a report keeps of a run and of replays.
use crate::tool::{files, words_of};
use run_model::history::History;
use std::alloc::Global;
use wiz_base::{Bytes, decimal, push_text};
use wiz_cli::top::wiz_serial;
use wiz_io::{MemorySink, MemoryStore};
use wiz_tool::report::Report;

/// Rank 0 waits for rank 2, which first waits for rank 1.
const CHAIN: &[u8] =
    b"int main(void){int r,x=0;MPI_Comm_rank(MPI_COMM_WORLD,&r);if(r==0)MPI_Recv(&x,1,MPI_INT,2,5,MPI_COMM_WORLD,MPI_STATUS_IGNORE);if(r==1)MPI_Send(&x,1,MPI_INT,2,5,MPI_COMM_WORLD);if(r==2){MPI_Recv(&x,1,MPI_INT,1,5,MPI_COMM_WORLD,MPI_STATUS_IGNORE);MPI_Send(&x,1,MPI_INT,0,5,MPI_COMM_WORLD);}return 0;}";

/// Rank 1 sends 1,000 messages, which rank 0 receives from any source; with one more; and the same where rank 0 then traps.
const FLOOD: &[u8] =
    b"int main(void){int r,i,x=0;MPI_Comm_rank(MPI_COMM_WORLD,&r);for(i=0;i<1000;i++){if(r==1)MPI_Send(&x,1,MPI_INT,0,1,MPI_COMM_WORLD);if(r==0)MPI_Recv(&x,1,MPI_INT,MPI_ANY_SOURCE,1,MPI_COMM_WORLD,MPI_STATUS_IGNORE);}return 0;}";

const LONGER_FLOOD: &[u8] =
    b"int main(void){int r,i,x=0;MPI_Comm_rank(MPI_COMM_WORLD,&r);for(i=0;i<1001;i++){if(r==1)MPI_Send(&x,1,MPI_INT,0,1,MPI_COMM_WORLD);if(r==0)MPI_Recv(&x,1,MPI_INT,MPI_ANY_SOURCE,1,MPI_COMM_WORLD,MPI_STATUS_IGNORE);}return 0;}";

const TRAPPED_FLOOD: &[u8] =
    b"int main(void){int r,i,x=0;MPI_Comm_rank(MPI_COMM_WORLD,&r);for(i=0;i<1001;i++){if(r==1)MPI_Send(&x,1,MPI_INT,0,1,MPI_COMM_WORLD);if(r==0)MPI_Recv(&x,1,MPI_INT,MPI_ANY_SOURCE,1,MPI_COMM_WORLD,MPI_STATUS_IGNORE);}if(r==0)x=1/x;return 0;}";

/// A log that diverges, as its program makes no send; one that starves, as the message that its rank waits for is never sent; and those of a
/// program without calls, of rank 0 and of rank 1, of which the second diverges.
const DIVERGED: &[u8] =
    b"srr 1\nranks 2\ngroup 0\nprogram 25\nint main(void){return 0;}\nrank 0 2\ns\nz\nend\n";

const STARVED: &[u8] =
    b"srr 1\nranks 1\ngroup 0\nprogram 91\nint main(void){int x;MPI_Recv(&x,1,MPI_INT,0,5,MPI_COMM_WORLD,MPI_STATUS_IGNORE);return 0;}\nrank 0 3\np\nt 0=0.9\nz\nend\n";

const ENDED: &[u8] =
    b"srr 1\nranks 2\ngroup 0\nprogram 25\nint main(void){return 0;}\nrank 0 1\nz\nend\n";

const DIVERGED_BESIDE: &[u8] =
    b"srr 1\nranks 2\ngroup 1\nprogram 25\nint main(void){return 0;}\nrank 1 2\ns\nz\nend\n";

/// A command a line: its status, how many events its run has (0 where there is none), how many replays it makes, and its arguments.
const KEPT: &str = "\
0 9 0 advise P Q 1 --serial
0 61 4 demo 7 1
0 64 4 demo 0 1
0 80 4 demo 2147483647 1
0 3002 0 races A R --order F
14 3005 0 races B R --order F
14 3005 0 races C R --order F
9 0 1 refine D R N
10 0 1 refine S T N
9 0 2 join E G N
";

/// So many turns of rank 1.
fn turns(alloc: Global, count: u64) -> Option<Bytes> {
    let mut text = Bytes::new(alloc);
    for _turn in 0..count {
        push_text(&mut text, b"1\n").ok()?;
    }
    Some(text)
}

/// The programs and logs above, with plans and an order.
fn inputs(alloc: Global) -> Option<MemoryStore> {
    let order = turns(alloc, 1001)?;
    let named: [(&str, &[u8]); 12] = [
        ("P", CHAIN),
        ("Q", b"0 1\n2"),
        ("R", b"0\n1"),
        ("T", b"0"),
        ("F", order.as_slice()),
        ("A", FLOOD),
        ("B", LONGER_FLOOD),
        ("C", TRAPPED_FLOOD),
        ("D", DIVERGED),
        ("S", STARVED),
        ("E", ENDED),
        ("G", DIVERGED_BESIDE),
    ];
    files(alloc, &named)
}

/// How many events a report's run has; 0 where there is none.
fn events_of(report: &Report) -> u32 {
    match &report.run {
        Some(run) => run.len(),
        None => 0,
    }
}

/// Whether a command keeps what its line says, whether or not its text is put out.
fn is_kept(alloc: Global, line: &str) -> Option<bool> {
    let (status, rest) = line.split_once(' ')?;
    let (events, rest) = rest.split_once(' ')?;
    let (replays, words) = rest.split_once(' ')?;
    let mut store = inputs(alloc)?;
    let mut out = MemorySink::new(alloc);
    let report = wiz_serial(alloc, &words_of(alloc, words)?, &mut store, &mut out);
    let found = [
        u64::from(report.status),
        u64::from(events_of(&report)),
        report.replayed.as_slice().len() as u64,
    ];
    Some(
        decimal(status.as_bytes(), 255)? == found[0]
            && decimal(events.as_bytes(), 999_999)? == found[1]
            && decimal(replays.as_bytes(), 64)? == found[2],
    )
}

#[test]
fn runs_and_replays_are_kept(rt: HostRuntime) {
    for line in KEPT.lines() {
        assert_eq!(rt; is_kept(rt.alloc(), line), Some(true), "{line}");
    }
}

/// Whether neither a halt nor a failed put takes the place of the status of too many races.
fn is_told_as_such(alloc: Global) -> Option<bool> {
    let mut full = MemorySink::new(alloc);
    full.fail(0).ok()?;
    let words: &[&str] = &["races", "C", "R", "--order", "F"];
    let report = wiz_serial(alloc, words, &mut inputs(alloc)?, &mut full);
    Some(report.status == 14 && events_of(&report) == 3005 && full.bytes().is_empty())
}

#[test]
fn a_halted_run_with_too_many_races_is_told_as_such(rt: HostRuntime) {
    assert_eq!(rt; is_told_as_such(rt.alloc()), Some(true));
}

/// Whether the events are of these ranks.
fn is_in_order(history: &History, ranks: &[u8]) -> bool {
    let events = history.as_slice();
    if events.len() != ranks.len() {
        return false;
    }
    for (event, rank) in events.iter().zip(ranks.iter()) {
        if event.rank != *rank {
            return false;
        }
    }
    true
}

/// Whether the run and the replays of its two groups have these orders.
fn has_orders(report: &Report, run: &[u8], zeroth: &[u8], first: &[u8]) -> bool {
    let Some(recorded) = &report.run else {
        return false;
    };
    let [zeroth_replayed, first_replayed] = report.replayed.as_slice() else {
        return false;
    };
    is_in_order(recorded, run)
        && is_in_order(&zeroth_replayed.events, zeroth)
        && is_in_order(&first_replayed.events, first)
}

/// Rank 0 waits for a message from outside its group when the run is recorded, and not when its group is replayed.
fn has_orders_of_its_own(alloc: Global) -> Option<bool> {
    let mut out = MemorySink::new(alloc);
    let words: &[&str] = &["check", "P", "Q", "--serial"];
    let report = wiz_serial(alloc, words, &mut inputs(alloc)?, &mut out);
    let run: &[u8] = &[0, 1, 2, 1, 2, 2, 0, 2, 0];
    Some(has_orders(&report, run, &[0, 1, 0, 1, 0], &[2, 2, 2, 2]))
}

#[test]
fn a_check_replays_each_group_in_an_order_of_its_own(rt: HostRuntime) {
    assert_eq!(rt; has_orders_of_its_own(rt.alloc()), Some(true));
}

/// Whether the first rank of the first group printed this when it was replayed.
fn has_first_output(report: &Report, printed: &[u8]) -> bool {
    let [replayed, ..] = report.replayed.as_slice() else {
        return false;
    };
    match replayed.outputs.as_slice() {
        [output, ..] => output.as_slice() == printed,
        [] => false,
    }
}

/// Whether rank 0 of the demo of one round from this seed prints this when it is replayed.
fn demonstrates(alloc: Global, seed: &str, printed: &[u8]) -> bool {
    let mut store = MemoryStore::new(alloc);
    let mut out = MemorySink::new(alloc);
    let report = wiz_serial(alloc, &["demo", seed, "1"], &mut store, &mut out);
    report.status == 0 && has_first_output(&report, printed)
}

/// A gather, a ring and a split.
#[test]
fn demos_print_their_totals(rt: HostRuntime) {
    assert!(&rt; demonstrates(rt.alloc(), "7", b"rank 0 total 120\n"));
    assert!(&rt; demonstrates(rt.alloc(), "0", b"rank 0 total 15\n"));
    assert!(&rt; demonstrates(rt.alloc(), "2147483647", b"rank 0 total 24\n"));
}
