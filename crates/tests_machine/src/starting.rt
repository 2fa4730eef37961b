//! Starts that may not be asked for.
ghost use Rattle.std.specs.Prelude.{◌≡◌, ◌+◌, ◌<◌, ◌^◌, IfOk, IsTrue, OnOk, length, true};
ghost use Rattle.match_core.specs.Starts.{is_message};
ghost use Rattle.requests.specs.States.{MayStart};

use mpi_call::call::{Call, Source, Tag, TakeMode};
use mpi_call::lists::{Ints, Starts};
use requests::requests::{Readiness, Requests, Started, TakeAnswer};
use std::alloc::{AllocError, Global};
use std::process::Abort;
use std::rt::HostRuntime;
use std::test::Fail;

/// What a rank does on the world: it sends so many ints to rank 1, receives one from any rank, or completes all of these starts.
#[derive(Clone, Copy)]
enum Step {
    Send(&'static [i32]),
    Post,
    Take(&'static [u32]),
}

/// What is answered: that a start was made, or how many starts a completion gives, or why it gives none.
#[derive(Clone, Copy, Debug, PartialEq, Eq)]
enum Answer {
    Made,
    Disagrees,
    Took(usize),
    NotReady,
    TooLong(u32),
    BadStart(u32),
}

fn in_short(answer: &TakeAnswer) -> Answer {
    match answer {
        TakeAnswer::Took(items) => Answer::Took(items.as_slice().len()),
        TakeAnswer::NotReady => Answer::NotReady,
        TakeAnswer::TooLong { start } => Answer::TooLong(*start),
        TakeAnswer::BadStart { start } => Answer::BadStart(*start),
    }
}

fn begin(requests: &mut Requests, at: u32, rank: u8, call: &Call) -> Result<Answer, AllocError>
    requires may { MayStart 2 at requests.old }
    requires rank { rank < 2 }
    requires kind { IsTrue (is_message call.now) }
    ensures { OnOk result (MayStart 2 (at + 1) requests.new) }
{
    match requests.start(at, rank, call)? {
        Started::Made { .. } => Ok(Answer::Made),
        Started::Disagrees { .. } => Ok(Answer::Disagrees),
    }
}

fn complete(
    requests: &mut Requests,
    at: u32,
    rank: u8,
    starts: &Starts,
) -> Result<Answer, AllocError>
    requires may { MayStart 2 at requests.old }
    requires rank { rank < 2 }
    ensures { OnOk result (MayStart 2 (at + 1) requests.new) }
{
    let _position = at;
    let answer = requests.take(rank, starts, TakeMode::All)?;
    Ok(in_short(&answer))
}

/// A send to rank 1.
fn send(alloc: Global, ints: &[i32]) -> Result<Call, AllocError>
    ensures { IfOk result (λ call. is_message call ≡ true) }
{
    Ok(Call::Send {
        comm: 0,
        dest: 1,
        tag: 5,
        ints: Ints::from_slice(alloc, ints)?,
        sync: false,
    })
}

/// What is answered to a step of a rank at a position.
fn step_at(
    alloc: Global,
    requests: &mut Requests,
    at: u32,
    rank: u8,
    step: Step,
) -> Result<Answer, AllocError>
    requires may { MayStart 2 at requests.old }
    requires rank { rank < 2 }
    ensures { OnOk result (MayStart 2 (at + 1) requests.new) }
{
    match step {
        Step::Send(ints) => {
            let call = send(alloc, ints)?;
            begin(requests, at, rank, &call)
        }
        Step::Post => {
            let call = Call::Post {
                comm: 0,
                source: Source::Any,
                tag: Tag::Any,
                room: 1,
            };
            begin(requests, at, rank, &call)
        }
        Step::Take(listed) => {
            let starts = Starts::from_slice(alloc, listed)?;
            complete(requests, at, rank, &starts)
        }
    }
}

/// What is tried, whether by rank 1, what it does, and what is answered; the position is the row's.
type Row = (&'static str, bool, Step, Answer);

static STEPS: [Row; 10] = [
    (
        "a start that was never made",
        true,
        Step::Take(&[0]),
        Answer::BadStart(0),
    ),
    ("a receive", true, Step::Post, Answer::Made),
    (
        "a wait before its message",
        true,
        Step::Take(&[0]),
        Answer::NotReady,
    ),
    ("its message", false, Step::Send(&[7]), Answer::Made),
    (
        "a start twice in a list",
        true,
        Step::Take(&[0, 0]),
        Answer::BadStart(0),
    ),
    ("its completion", true, Step::Take(&[0]), Answer::Took(1)),
    (
        "a completed start",
        true,
        Step::Take(&[0]),
        Answer::BadStart(0),
    ),
    (
        "a message of two ints",
        false,
        Step::Send(&[7, 8]),
        Answer::Made,
    ),
    ("a receive of one", true, Step::Post, Answer::Made),
    (
        "a start that was never made, behind one that is too long",
        true,
        Step::Take(&[1, 2]),
        Answer::BadStart(2),
    ),
];

/// The starts after these steps, each answered as it says.
fn started(rt: &(impl Abort + AllocGlobal), rows: &[Row]) -> Result<Requests, Fail>
    requires { length rows.now < 2 ^ 32 }
{
    let alloc = rt.alloc();
    let mut requests = Requests::new(alloc, 2)?;
    for at in 0..rows.len() {
        let (name, is_first, step, want) = rows[at];
        let rank = if is_first { 1 } else { 0 };
        let got = step_at(alloc, &mut requests, at as u32, rank, step)?;
        assert_eq!(rt; got, want, "{name}");
    }
    Ok(requests)
}

#[test]
fn starts_are_refused(rt: HostRuntime) -> Result<(), Fail> {
    let requests = started(&rt, &STEPS)?;
    assert_eq!(rt; requests.ready(1, 0), Readiness::Taken);
    assert_eq!(rt; requests.ready(1, 2), Readiness::NoSuch);
    assert_eq!(rt; requests.ready(0, 1), Readiness::Ready);
    assert_eq!(rt; requests.name_at(8), 1);
    Ok(())
}
