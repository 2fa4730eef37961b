//! Each read, write and put of each command failing in turn, on one thread and on threads.
use crate::programs::{FIRST, FIRST_LOG};
use crate::tool::{Answer, answer_of, ask, files, joined, run, words_of};
use crate::words::asks_for_threads;
use std::alloc::Global;
use std::sync::Wait;
use std::thread::Threads;
use wiz_base::decimal;
use wiz_cli::top::wiz_serial;
use wiz_io::{MemorySink, MemoryStore};

/// A command a line: its arguments, the files that it reads, and those that it then writes.
const COMMANDS: &str = "\
record P Q A|P Q|A.0.srr A.1.srr A.order
record P Q A --serial|P Q|A.0.srr A.1.srr A.order
record P Q A --order F|P Q F|A.0.srr A.1.srr A.order
check P Q|P Q|
check P Q --serial|P Q|
races P Q|P Q|
races P Q --serial|P Q|
races P Q --order F|P Q F|
races P Q --serial --orders A|P Q|
races S T --order U --orders A|S T U|A.2.0.1.order
waits P Q|P Q|
waits P Q --serial|P Q|
waits P Q --order F|P Q F|
advise P Q 1|P Q|
advise P Q 1 --serial|P Q|
advise P Q 1 --order F|P Q F|
picture P Q A|P Q|A
picture P Q A --trace --serial|P Q|A
picture C Q A --serial|C Q|A
picture C Q A --trace --serial|C Q|A
explore P Q A|P Q|A.0.order
demo 0 1||
replay L|L|
replay L --serial|L|
replay L --program P|L P|
replay L --program P --serial|L P|
show L|L|
stats L|L|
diff L L|L L|
watch L 1 x|L|
watch L 1 x --program P|L P|
at L 1:1|L|
where L 0.0|L|
convert L M|L|M
convert L M --text|L|M
refine L Q A|L Q|A.0.srr A.1.srr
join G H M|G H|M
";

/// Two ranks that receive from each other before anything is sent.
const CYCLE: &[u8] =
    b"int main(void){int r,x=0;MPI_Comm_rank(MPI_COMM_WORLD,&r);MPI_Recv(&x,1,MPI_INT,1-r,5,MPI_COMM_WORLD,MPI_STATUS_IGNORE);return 0;}";

/// Ranks 0 and 1 send to rank 2, which takes them as they come.
const TWO_SENDERS: &[u8] =
    b"int main(void){int r,x=0;MPI_Comm_rank(MPI_COMM_WORLD,&r);if(r<2)MPI_Send(&r,1,MPI_INT,2,9,MPI_COMM_WORLD);if(r==2){MPI_Recv(&x,1,MPI_INT,MPI_ANY_SOURCE,9,MPI_COMM_WORLD,MPI_STATUS_IGNORE);MPI_Recv(&x,1,MPI_INT,MPI_ANY_SOURCE,9,MPI_COMM_WORLD,MPI_STATUS_IGNORE);}return 0;}";

/// A program that makes no call but the last, and the logs of two ranks that run it, each alone.
const ZEROTH_LOG: &[u8] =
    b"srr 1\nranks 2\ngroup 0\nprogram 25\nint main(void){return 0;}\nrank 0 1\nz\nend\n";

const FIRST_RANK_LOG: &[u8] =
    b"srr 1\nranks 2\ngroup 1\nprogram 25\nint main(void){return 0;}\nrank 1 1\nz\nend\n";

/// The programs `P`, `C` and `S` with plans and orders, and the logs `L`, `G` and `H`.
fn inputs(alloc: Global) -> Option<MemoryStore> {
    let named: [(&str, &[u8]); 10] = [
        ("P", FIRST),
        ("Q", b"0\n1\n"),
        ("F", b"0\n"),
        ("C", CYCLE),
        ("S", TWO_SENDERS),
        ("T", b"0-2"),
        ("U", b"0\n1\n2\n"),
        ("L", FIRST_LOG),
        ("G", ZEROTH_LOG),
        ("H", FIRST_RANK_LOG),
    ];
    files(alloc, &named)
}

/// A line of the commands.
#[derive(Drop)]
struct Row<'a> {
    words: &'a str,
    read: Vec<&'a str>,
    written: Vec<&'a str>,
}

fn row_of<'a>(alloc: Global, line: &'a str) -> Option<Row<'a>> {
    let (words, named) = line.split_once('|')?;
    let (read, written) = named.split_once('|')?;
    Some(Row {
        words,
        read: words_of(alloc, read)?,
        written: words_of(alloc, written)?,
    })
}

/// Whether of these files the first so many are there, and no other.
fn are_first(store: &MemoryStore, names: &[&str], count: usize) -> bool {
    for (at, name) in names.iter().enumerate() {
        if store.file(name).is_some() != (at < count) {
            return false;
        }
    }
    true
}

/// Whether an answer tells that this file could not be read, or written.
fn tells(alloc: Global, found: &Answer, status: u8, front: &[u8], name: &str) -> Option<bool> {
    let message = joined(alloc, &[front, name.as_bytes(), b"\n"])?;
    Some(found.has(status, message.as_slice()))
}

/// Whether a command whose read or write of this number fails tells that, with the files written before it; one that makes no such
/// call answers as ever.
fn tells_fault<R: Threads + Wait + Sync + AllocGlobal>(
    rt: &R,
    row: &Row<'_>,
    sound: &Answer,
    call: usize,
) -> Option<bool> {
    let alloc = rt.alloc();
    let mut store = inputs(alloc)?;
    store.fail(u32::try_from(call).ok()?).ok()?;
    let found = ask(rt, &mut store, row.words)?;
    let before = call.saturating_sub(row.read.len());
    let so = match (row.read.get(call), row.written.get(before)) {
        (Some(name), _) => tells(alloc, &found, 3, b"cannot read ", name)? && found.replays == 0,
        (None, Some(name)) => tells(alloc, &found, 4, b"cannot write ", name)?,
        (None, None) => found.is(sound),
    };
    Some(so && are_first(&store, &row.written, before))
}

/// Whether a command whose put of this number fails writes its files, puts nothing more out, and tells the fault by its status; one put
/// has all that is printed.
fn ends_at_put<R: Threads + Wait + Sync + AllocGlobal>(
    rt: &R,
    row: &Row<'_>,
    sound: &Answer,
    put: u32,
) -> Option<bool> {
    let alloc = rt.alloc();
    let mut store = inputs(alloc)?;
    let mut full = MemorySink::new(alloc);
    full.fail(put).ok()?;
    let report = run(rt, &mut store, row.words, &mut full)?;
    let found = answer_of(alloc, &report, &full)?;
    let is_lost = put == 0 && !sound.printed.is_empty();
    let so = if is_lost {
        found.has(4, b"")
    } else {
        found.is(sound)
    };
    Some(so && are_first(&store, &row.written, row.written.len()))
}

/// Whether a command tells each of its reads, writes and puts that fails.
fn tells_each<R: Threads + Wait + Sync + AllocGlobal>(rt: &R, line: &str) -> Option<bool> {
    let row = row_of(rt.alloc(), line)?;
    let sound = ask(rt, &mut inputs(rt.alloc())?, row.words)?;
    let calls = row.read.len().checked_add(row.written.len())?;
    for call in 0..calls {
        if !tells_fault(rt, &row, &sound, call)? {
            return Some(false);
        }
    }
    let puts = ends_at_put(rt, &row, &sound, 0)? && ends_at_put(rt, &row, &sound, 1)?;
    Some(puts && tells_fault(rt, &row, &sound, calls)?)
}

#[test]
fn each_read_write_and_put_of_a_command_fails_in_turn(rt: HostRuntime) {
    for line in COMMANDS.lines() {
        assert_eq!(rt; tells_each(&rt, line), Some(true), "{line}");
    }
}

/// Whether a command answers the same where there are no threads, or, if it asks for threads, is refused.
fn is_same_alone<R: Threads + Wait + Sync + AllocGlobal>(rt: &R, line: &str) -> Option<bool> {
    let alloc = rt.alloc();
    let row = row_of(alloc, line)?;
    let sound = ask(rt, &mut inputs(alloc)?, row.words)?;
    let words = words_of(alloc, row.words)?;
    let mut store = inputs(alloc)?;
    let mut out = MemorySink::new(alloc);
    let report = wiz_serial(alloc, &words, &mut store, &mut out);
    let found = answer_of(alloc, &report, &out)?;
    if found.has(1, b"refused words\n") {
        return Some(asks_for_threads(alloc, &words)? && are_first(&store, &row.written, 0));
    }
    Some(found.is(&sound) && are_first(&store, &row.written, row.written.len()))
}

#[test]
fn commands_answer_alike_without_threads(rt: HostRuntime) {
    for line in COMMANDS.lines() {
        assert_eq!(rt; is_same_alone(&rt, line), Some(true), "{line}");
    }
}

/// The first program, but rank 0 sends to itself: its run is stuck, and the first log's replay with it diverges.
const SENT_TO_SELF: &[u8] =
    b"int main(void){int r,x=7;MPI_Comm_rank(MPI_COMM_WORLD,&r);if(r==0)MPI_Send(&x,1,MPI_INT,0,5,MPI_COMM_WORLD);if(r==1){x=0;MPI_Recv(&x,1,MPI_INT,0,5,MPI_COMM_WORLD,MPI_STATUS_IGNORE);printf(\"%d\\n\",x);}return 0;}";

/// A run of 4,001 events.
const LONG: &[u8] =
    b"int main(void){int i,x=0;for(i=0;i<4000;i++)MPI_Send(&x,1,MPI_INT,0,5,MPI_COMM_WORLD);return 0;}";

/// A command a line, whose first put fails: the status, which is that of a text that is not put out, or that of a message, which stays as it
/// is, or of a command that prints nothing; and the arguments.
const UNPRINTED: &str = "\
4 check P Q --serial
4 races P Q --serial
4 waits P Q --serial
4 diff L L
4 advise P Q 1 --order F
4 record P Q A --serial
4 replay L --program P --serial
1 play
2 show N
2 convert N M
2 diff L N
5 record Q Q A --serial
5 replay L --program Q --serial
6 check P L --serial
6 record P Q A --order P
8 stats Q
8 diff L Q
8 convert Q M
0 picture D F M.svg --serial
14 picture E F M --serial
";

/// Whether a command whose first put fails has this status, puts nothing out and writes no file `M`.
fn is_unprinted(alloc: Global, line: &str) -> Option<bool> {
    let (status, words) = line.split_once(' ')?;
    let status = decimal(status.as_bytes(), 255)?;
    let named: [(&str, &[u8]); 6] = [
        ("P", SENT_TO_SELF),
        ("Q", b"0\n1\n"),
        ("L", FIRST_LOG),
        ("F", b"0\n"),
        ("D", b"int main(void){return 0;}"),
        ("E", LONG),
    ];
    let mut store = files(alloc, &named)?;
    let mut full = MemorySink::new(alloc);
    full.fail(0).ok()?;
    let report = wiz_serial(alloc, &words_of(alloc, words)?, &mut store, &mut full);
    let so = u64::from(report.status) == status && full.bytes().is_empty();
    Some(so && store.file("M").is_none())
}

#[test]
fn a_put_that_fails_leaves_a_message_out(rt: HostRuntime) {
    for line in UNPRINTED.lines() {
        assert_eq!(rt; is_unprinted(rt.alloc(), line), Some(true), "{line}");
    }
}
