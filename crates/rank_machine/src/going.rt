//! A rank that uses replies up.
ghost use Rattle.std.specs.Prelude.{◌≡◌, ◌≢◌, ◌≤◌, ◌∷◌, [], IfOk, Ok, OnOk, length, map, pos};
ghost use Rattle.c_program.specs.declared.state.Passed.TheVariants.{Number};
ghost use Rattle.c_program.specs.Courses.{Course, ended};
ghost use Rattle.c_program.specs.Meaning.{call_at, start};
ghost use Rattle.c_program.specs.View.{pure_function};
ghost use Rattle.c_run_replies.specs.declared.question.Reached.TheVariants.{Done};
ghost use Rattle.rank_machine.specs.Frames.{IsAt, CountsOpenCalls, HasComeTo};
ghost use Rattle.rank_machine.specs.Goings.{HasCaughtUp};

use crate::frame::{Code, Target};
use crate::stack::Stack;
use c_program::state::Passed;
use c_run_cells::fail::Fail;
use c_run_cells::state::RankState;
use c_run_replies::question::{Question, Reached};
use c_run_replies::reply::reply_to;
use mpi_call::limits::MOST_RANKS;
use mpi_call::reply::Reply;
use std::alloc::AllocError;

/// What stands after some replies, and how many they are.
#[derive(Drop)]
pub struct Going<'p> {
    pub stack: Stack<'p>,
    pub found: Reached,
    pub used: usize,
}

/// The begin of main.
pub fn begin<'p>(code: &Code<'p>, main: usize) -> Result<Going<'p>, AllocError>
    ensures at { IfOk result (λ going. IsAt (call_at code.now.rank (map pure_function code.now.functions.now) 100 main (Number (pos 1) ∷ []) start (λ v s. ended s)) code.now going.found going.stack) }
    ensures unused { IfOk result (λ going. going.used ≡ 0) }
{
    let mut stack = Stack {
        frames: Vec::new(code.alloc),
        opens: 0,
        state: RankState::new(code.alloc)?,
    };
    let came = stack.call_function(code, main, &[Passed::Number(1)], Target::Nowhere);
    let found = settle(code, came, &mut stack)?;
    Ok(Going {
        stack,
        found,
        used: 0,
    })
}

/// Where a rank has come to: a fault is a trap that it asks, with nothing open.
fn settle<'p>(
    code: &Code<'p>,
    came: Result<Reached, Fail>,
    stack: &mut Stack<'p>,
) -> Result<Reached, AllocError>
    ensures at { IfOk result (λ found. (course : Course) → HasComeTo course code.now came stack.old → IsAt course code.now found stack.new) }
    ensures stops { IfOk result (λ found. (came ≢ Ok Done) → found ≢ Done) }
{
    match came {
        Ok(found) => Ok(found),
        Err(Fail::Memory) => Err(AllocError),
        Err(Fail::Trapped(fault)) => {
            stack.frames.clear();
            stack.opens = 0;
            Ok(Reached::Asks(Question::Trap(fault)))
        }
    }
}

/// Goes on with the replies that are not used yet.
pub fn catch_up<'p>(
    code: &Code<'p>,
    replies: &[Reply],
    going: &mut Going<'p>,
) -> Result<(), AllocError>
    requires few { code.now.rank.ranks ≤ MOST_RANKS }
    requires counted { CountsOpenCalls code.now going.old.stack }
    requires used { going.old.used ≤ length replies.now }
    ensures { OnOk result (HasCaughtUp code.now replies.now going.old going.new) }
{
    loop {
        match going.found {
            Reached::Done => {
                let came = going.stack.run(code);
                going.found = settle(code, came, &mut going.stack)?;
            }
            Reached::Asks(question) => {
                if going.used >= replies.len() {
                    return Ok(());
                }
                going.found = reply_to(
                    code.alloc,
                    code.rank,
                    &question,
                    &replies[going.used],
                    &mut going.stack.state,
                )?;
                going.used += 1;
            }
            Reached::Over => {
                going.used = replies.len();
                return Ok(());
            }
        }
    }
}
