//! A rank of a C program, which evaluates anew at each call.
ghost use Rattle.std.specs.Prelude.{◌≡◌, ◌≤◌, ◌<◌, ◌∷◌, [], IfOk, false, pos};
ghost use Rattle.c_program.specs.declared.state.Passed.TheVariants.{Number};
ghost use Rattle.c_program.specs.Courses.{after_replies, asks_last, ended};
ghost use Rattle.c_program.specs.State.{State};
ghost use Rattle.c_eval.specs.inside.Parts.{calls_of};
ghost use Rattle.c_eval.specs.Ranks.{Wants};

use crate::calls::CallContext;
use crate::evaluate::call_function;
use crate::outcome::{Replies, Stop};
use c_program::CProgram;
use c_program::constants::MOST_CALLS;
use c_program::effect::Rank;
use c_program::state::Passed;
use c_run_cells::state::RankState;
use mpi_call::call::Call;
use mpi_call::limits::MOST_RANKS;
use mpi_call::reply;
use mpi_call::reply::Reply;
use run_model::lists::Variables;
use run_model::program::{RankRun, Want};
use std::alloc::{AllocError, Global};
use std::marker::Model;
use std::mem;

/// A rank that runs a C program. It keeps the replies that it got, and what stands at the last call that was asked for.
/// Contracts see what it stands for.
#[derive(Drop)]
pub struct EvalRank<'p> {
    alloc: Global,
    program: &'p CProgram,
    rank: Rank,
    replies: Vec<Reply>,
    asked: bool,
    state: RankState<'p>,
}

impl<'p> Model for EvalRank<'p> {
    ghost use Rattle.run_model.specs.Program.{Standing};
    ghost use Rattle.c_program.specs.declared.program.CProgram.{CProgram};
    ghost use Rattle.c_program.specs.View.{pure_program};
    ghost use Rattle.c_eval.specs.inside.Parts.{calls_of};
    ghost use Rattle.c_eval.specs.Ranks.{IsRankAt};
    ghost use Rattle.c_program.specs.contracts.statement.TypedPart as part;
    ghost use Rattle.std.specs.Coded.{codes};

    ghost Value = { Standing CProgram };

    ghost coded = { Prim.hlevel (codes, part.the_row.coded) };

    ghost view = { λ r. record { program = r.program.now; ranks = r.rank.ranks; rank = r.rank.number; replies = r.replies.items; asked = r.asked } };

    ghost invariant = { λ r. IsRankAt (pure_program r.program.now) r.rank r.replies.items r.asked r.state };
}

impl<'p> EvalRank<'p> {
    /// A rank that has got no reply yet.
    pub fn start(alloc: Global, program: &'p CProgram, n: u8, rank: u8) -> Result<Self, AllocError>
        requires member { rank < n }
        requires few { n ≤ MOST_RANKS }
        ensures { IfOk result (λ run. run ≡ record { program = program.now; ranks = n; rank = rank; replies = []; asked = false }) }
    {
        Ok(EvalRank {
            alloc,
            program,
            rank: Rank {
                ranks: n,
                number: rank,
            },
            replies: Vec::new(alloc),
            asked: false,
            state: RankState::new(alloc)?,
        })
    }
}

impl<'p> RankRun for EvalRank<'p> {
    type Of = CProgram;

    ghost standing = { λ r. r };

    fn want(&mut self) -> Result<Want, AllocError> {
        let calls = CallContext {
            alloc: self.alloc,
            rank: self.rank,
            functions: &self.program.functions,
            depth: MOST_CALLS,
        };
        let mut state = RankState::new(self.alloc)?;
        let want = evaluate(&calls, self.program.main, &self.replies, &mut state)?;
        mem::swap(&mut self.state, &mut state);
        self.asked = true;
        Ok(want)
    }

    fn give(&mut self, reply: &Reply) -> Result<(), AllocError> {
        let kept = reply::copy_of(reply)?;
        self.replies.push(kept)?;
        self.asked = false;
        Ok(())
    }

    fn printed(&self) -> &[u8] {
        self.state.printed()
    }

    fn variables(&self) -> Result<Variables, AllocError> {
        self.state.variables(self.alloc)
    }
}

/// What the rank wants after these replies, where the evaluation of its program begins at the state; the state is then
/// that of this call.
fn evaluate<'p>(
    calls: &CallContext<'p>,
    main: usize,
    replies: &[Reply],
    state: &mut RankState<'p>,
) -> Result<Want, AllocError>
    requires { calls.now.rank.ranks ≤ MOST_RANKS }
    ensures { IfOk result (λ want. Wants (after_replies (calls_of calls.now main (Number (pos 1) ∷ []) state.old (λ v s. ended s)) replies.now) want state.new) }
{
    let mut rest = Replies::of(replies);
    match call_function(calls, main, &[Passed::Number(1)], state, &mut rest) {
        Ok(_) => Ok(last(Call::End, &mut rest)),
        Err(Stop::Memory) => Err(AllocError),
        Err(Stop::Trapped(fault)) => Ok(last(Call::Trap { fault }, &mut rest)),
        Err(Stop::Waits(call)) => Ok(Want::Ask(call)),
        Err(Stop::Over) => Ok(Want::Ended),
    }
}

/// A call that no other follows.
fn last(call: Call, rest: &mut Replies) -> Want
    ensures { (s : State) → Wants (after_replies (asks_last call s) rest.old) result s }
{
    match rest.next() {
        None => Want::Ask(call),
        Some(_) => Want::Ended,
    }
}
