//! Values, calls and ways out: what takes places from the stack, and opens calls.
ghost use Rattle.std.specs.Prelude.{◌≡◌, ◌≤◌, ◌+◌, suc, OnOk};
ghost use Rattle.c_program.specs.Meaning.{invoke, right};
ghost use Rattle.c_program.specs.State.{leave};
ghost use Rattle.c_program.specs.View.{pure_call, pure_mpi, pure_right};
ghost use Rattle.c_run_cells.specs.Parts.{mpi};
ghost use Rattle.rank_machine.specs.Frames.{EndsInnermost, CountsOpenCalls, HasComeTo, calls_in, given_to, weight, within};

use crate::frame::{Called, Code, ContinuationFrame, Target};
use c_program::constants::MOST_CALLS;
use c_program::expr::{FunctionCall, TypedRight};
use c_program::mpi::MpiCall;
use c_program::state::Passed;
use c_run_cells::fail::Fail;
use c_run_cells::parts::{arguments_of, enter, function_at, put_assigned, take_step};
use c_run_cells::state::RankState;
use c_run_effects::effects::effect_of;
use c_run_replies::ask::ask;
use c_run_replies::question::{Question, Reached};
use mpi_call::call::Fault;
use mpi_call::limits::MOST_RANKS;

/// What stands: the places that are open, the innermost last, how many calls are open, and the state.
#[derive(Drop)]
pub struct Stack<'p> {
    pub frames: Vec<ContinuationFrame<'p>>,
    pub opens: u32,
    pub state: RankState<'p>,
}

impl<'p> Stack<'p> {
    // ---- values

    /// Gives a value to where it goes.
    pub fn give(&mut self, code: &Code<'p>, target: Target, value: i32) -> Result<Reached, Fail>
        requires { CountsOpenCalls code.now self.old }
        ensures stands { HasComeTo (given_to target (within code.now self.old.frames.items).exits value self.old.state) code.now result self.new }
        ensures fewer { OnOk result (weight self.new ≤ weight self.old) }
    {
        match target {
            Target::Nowhere => Ok(Reached::Done),
            Target::Cell { operator, cell } => {
                put_assigned(operator, cell, value, &mut self.state)?;
                Ok(Reached::Done)
            }
            Target::Back => self.give_back(code, value),
        }
    }

    /// Comes back from the innermost call that is open.
    pub fn give_back(&mut self, code: &Code<'p>, value: i32) -> Result<Reached, Fail>
        requires { CountsOpenCalls code.now self.old }
        ensures stands { HasComeTo ((within code.now self.old.frames.items).exits.back value self.old.state) code.now result self.new }
        ensures fewer { OnOk result (weight self.new ≤ weight self.old) }
    {
        match self.pop_call(code) {
            None => Ok(Reached::Asks(Question::End)),
            Some(called) => self.come_back(code, called, value),
        }
    }

    /// Ends a call that was taken from the stack.
    pub fn come_back(
        &mut self,
        code: &Code<'p>,
        called: Called,
        value: i32,
    ) -> Result<Reached, Fail>
        requires { self.old.opens ≡ suc (within code.now self.old.frames.items).opens }
        ensures stands { HasComeTo (given_to called.target (within code.now self.old.frames.items).exits value (leave called.mark self.old.state)) code.now result self.new }
        ensures fewer { OnOk result (weight self.new ≤ weight self.old) }
    {
        let mut last = called;
        loop {
            self.state.leave(last.mark);
            self.opens -= 1;
            match last.target {
                Target::Nowhere => return Ok(Reached::Done),
                Target::Cell { operator, cell } => {
                    put_assigned(operator, cell, value, &mut self.state)?;
                    return Ok(Reached::Done);
                }
                Target::Back => match self.pop_call(code) {
                    None => return Ok(Reached::Asks(Question::End)),
                    Some(next) => last = next,
                },
            }
        }
    }

    /// Takes places from the stack, up to the innermost call; blocks end.
    fn pop_call(&mut self, code: &Code<'p>) -> Option<Called>
        requires { CountsOpenCalls code.now self.old }
        ensures { EndsInnermost code.now self.old self.new result }
    {
        while let Some(frame) = self.frames.pop() {
            match frame {
                ContinuationFrame::Called(called) => return Some(called),
                ContinuationFrame::Block(mark) => self.state.leave(mark),
                _ => {}
            }
        }
        None
    }

    // ---- ways out

    /// Goes on behind the innermost loop.
    pub fn break_out(&mut self, code: &Code<'p>) -> Result<Reached, Fail>
        requires { CountsOpenCalls code.now self.old }
        ensures stands { HasComeTo ((within code.now self.old.frames.items).exits.broke self.old.state) code.now result self.new }
        ensures fewer { OnOk result (weight self.new ≤ weight self.old) }
    {
        while let Some(frame) = self.frames.pop() {
            match frame {
                ContinuationFrame::Repeat(_) => return Ok(Reached::Done),
                ContinuationFrame::Block(mark) => self.state.leave(mark),
                ContinuationFrame::Called(called) => return self.come_back(code, called, 0),
                _ => {}
            }
        }
        Ok(Reached::Asks(Question::End))
    }

    /// Goes on with what follows on a turn of the innermost loop, which is then the innermost place.
    pub fn go_again(&mut self, code: &Code<'p>) -> Result<Reached, Fail>
        requires { CountsOpenCalls code.now self.old }
        ensures stands { HasComeTo ((within code.now self.old.frames.items).exits.again self.old.state) code.now result self.new }
        ensures fewer { OnOk result (weight self.new ≤ weight self.old) }
    {
        while let Some(frame) = self.frames.pop() {
            match frame {
                ContinuationFrame::Turn(update) => {
                    self.frames.push(ContinuationFrame::Turn(update))?;
                    return Ok(Reached::Done);
                }
                ContinuationFrame::Block(mark) => self.state.leave(mark),
                ContinuationFrame::Called(called) => return self.come_back(code, called, 0),
                _ => {}
            }
        }
        Ok(Reached::Asks(Question::End))
    }

    // ---- calls

    /// A call of a function of the text, which takes a step.
    pub fn invoke(
        &mut self,
        code: &Code<'p>,
        call: &'p FunctionCall,
        target: Target,
    ) -> Result<Reached, Fail>
        requires { CountsOpenCalls code.now self.old }
        ensures stands { HasComeTo (invoke (calls_in code.now self.old.opens) (pure_call call.now) self.old.state (given_to target (within code.now self.old.frames.items).exits)) code.now result self.new }
        ensures fewer { OnOk result (weight self.new + 6 ≤ weight self.old) }
    {
        take_step(&mut self.state)?;
        let arguments = arguments_of(code.alloc, &call.arguments, &self.state)?;
        self.call_function(code, call.function, &arguments, target)
    }

    /// The call of a function by its number, once its arguments are evaluated.
    pub fn call_function(
        &mut self,
        code: &Code<'p>,
        number: usize,
        arguments: &[Passed],
        target: Target,
    ) -> Result<Reached, Fail>
        requires { CountsOpenCalls code.now self.old }
        ensures stands { HasComeTo (calls_in code.now self.old.opens number arguments.now self.old.state (given_to target (within code.now self.old.frames.items).exits)) code.now result self.new }
        ensures fewer { OnOk result (weight self.new ≤ weight self.old + 2) }
    {
        if self.opens >= MOST_CALLS {
            return Err(Fail::Trapped(Fault::Depth));
        }
        let Some(function) = function_at(code.functions, number) else {
            return Err(Fail::Trapped(Fault::Depth));
        };
        let mark = self.state.mark();
        enter(function, arguments, &mut self.state)?;
        self.frames
            .push(ContinuationFrame::Called(Called { mark, target }))?;
        self.frames.push(ContinuationFrame::Rest(&function.body))?;
        self.opens += 1;
        Ok(Reached::Done)
    }

    /// A right side, whose value goes somewhere.
    pub fn right(
        &mut self,
        code: &Code<'p>,
        one: &'p TypedRight,
        target: Target,
    ) -> Result<Reached, Fail>
        requires { CountsOpenCalls code.now self.old }
        ensures stands { HasComeTo (right (calls_in code.now self.old.opens) (pure_right one.now) self.old.state (given_to target (within code.now self.old.frames.items).exits)) code.now result self.new }
        ensures fewer { OnOk result (weight self.new ≤ weight self.old) }
    {
        match one {
            TypedRight::Value(expression) => {
                let value = self.state.value(expression)?;
                self.give(code, target, value)
            }
            TypedRight::Call(call) => self.invoke(code, call, target),
        }
    }

    /// A call of an MPI function.
    pub fn call_mpi(&mut self, code: &Code<'p>, call: &MpiCall) -> Result<Reached, Fail>
        requires counted { CountsOpenCalls code.now self.old }
        requires few { code.now.rank.ranks ≤ MOST_RANKS }
        ensures stands { HasComeTo (mpi code.now.rank (pure_mpi call.now) self.old.state (within code.now self.old.frames.items).exits.next) code.now result self.new }
        ensures fewer { OnOk result (weight self.new ≤ weight self.old) }
    {
        let effect = effect_of(code.rank, call, &self.state)?;
        Ok(ask(code.alloc, code.rank, effect, &mut self.state)?)
    }
}
