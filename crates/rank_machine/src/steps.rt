//! Statements: what each does at once, and what it opens.
ghost use Rattle.std.specs.Prelude.{◌≡◌, ◌≢◌, ◌≤◌, ◌<◌, ◌+◌, ◌*◌, OnOk, IfOk, Some, map, option_copied, option_map};
ghost use Rattle.c_program.specs.Meaning.{act, act_part, act_parts, declare_all, for_update, leaving, loop, loop_after, no_update, return, simple, started, test};
ghost use Rattle.c_program.specs.State.{stack_mark};
ghost use Rattle.c_program.specs.View.{pure_call, pure_expr, pure_initial, pure_item, pure_part, pure_parts, pure_right, pure_simple, pure_start, pure_stmt};
ghost use Rattle.c_run_replies.specs.declared.question.Reached.TheVariants.{Done};
ghost use Rattle.c_run_cells.specs.Comes.{ComesOut};
ghost use Rattle.rank_machine.specs.Frames.{CountsOpenCalls, HasComeTo, begun_value, initial_call, calls_in, if_statement, for_statement, looping, turns_at, weight, within};

use crate::frame::{Code, ContinuationFrame, Loop, Target};
use crate::stack::Stack;
use c_program::expr::{FunctionCall, TypedExpr, TypedRight};
use c_program::statement::{
    TypedForStart, TypedInitDeclarator, TypedInitializer, TypedPart, TypedSimple, TypedStmt,
};
use c_run_cells::fail::Fail;
use c_run_cells::parts::{add, print, put_values_of, take_step};
use c_run_cells::state::RankState;
use c_run_replies::question::{Question, Reached};
use mpi_call::call::Fault;
use mpi_call::limits::MOST_RANKS;

impl<'p> Stack<'p> {
    /// A statement that stands before a `;`.
    fn simple(&mut self, code: &Code<'p>, one: &'p TypedSimple) -> Result<Reached, Fail>
        requires counted { CountsOpenCalls code.now self.old }
        requires few { code.now.rank.ranks ≤ MOST_RANKS }
        ensures stands { HasComeTo (simple code.now.rank (calls_in code.now self.old.opens) (pure_simple one.now) self.old.state (within code.now self.old.frames.items).exits.next) code.now result self.new }
        ensures fewer { OnOk result (weight self.new ≤ weight self.old) }
    {
        match one {
            TypedSimple::Set { place, right } => {
                let cell = self.state.cell_of(place)?;
                self.right(
                    code,
                    right,
                    Target::Cell {
                        operator: None,
                        cell,
                    },
                )
            }
            TypedSimple::Update {
                place,
                operator,
                right,
            } => {
                let cell = self.state.cell_of(place)?;
                self.right(
                    code,
                    right,
                    Target::Cell {
                        operator: Some(*operator),
                        cell,
                    },
                )
            }
            TypedSimple::Call(call) => self.invoke(code, call, Target::Nowhere),
            TypedSimple::Mpi(call) => self.call_mpi(code, call),
            TypedSimple::Print { format, arguments } => {
                print(code.alloc, format, arguments, &mut self.state)?;
                Ok(Reached::Done)
            }
            TypedSimple::Flush => Ok(Reached::Done),
        }
    }

    /// What stands behind the second `;` of a `for`.
    fn update(&mut self, code: &Code<'p>, update: Option<&'p TypedSimple>) -> Result<Reached, Fail>
        requires counted { CountsOpenCalls code.now self.old }
        requires few { code.now.rank.ranks ≤ MOST_RANKS }
        ensures stands { HasComeTo (for_update code.now.rank (calls_in code.now self.old.opens) (option_map pure_simple (option_copied update.entry)) self.old.state (within code.now self.old.frames.items).exits.next) code.now result self.new }
        ensures fewer { OnOk result (weight self.new ≤ weight self.old) }
    {
        match update {
            None => Ok(Reached::Done),
            Some(one) => self.simple(code, one),
        }
    }

    /// Variables, in order; those behind a call stay open.
    fn declare_all(
        &mut self,
        code: &Code<'p>,
        items: &'p [TypedInitDeclarator],
    ) -> Result<Reached, Fail>
        requires { CountsOpenCalls code.now self.old }
        ensures stands { HasComeTo (declare_all (calls_in code.now self.old.opens) (map pure_item items.now) self.old.state (within code.now self.old.frames.items).exits.next) code.now result self.new }
        ensures fewer { OnOk result (weight self.new ≤ weight self.old) }
    {
        for (i, item) in items.iter().enumerate() {
            let cell = add(item, &mut self.state)?;
            if let Some(call) = call_in(&item.initial) {
                self.frames.push(ContinuationFrame::Items(&items[i + 1..]))?;
                return self.invoke(
                    code,
                    call,
                    Target::Cell {
                        operator: None,
                        cell,
                    },
                );
            }
            begin_value(&item.initial, cell, &mut self.state)?;
        }
        Ok(Reached::Done)
    }

    /// A `return`.
    fn run_return(
        &mut self,
        code: &Code<'p>,
        value: &'p Option<TypedRight>,
    ) -> Result<Reached, Fail>
        requires { CountsOpenCalls code.now self.old }
        ensures stands { HasComeTo (return (calls_in code.now self.old.opens) (option_map pure_right value.now) self.old.state (within code.now self.old.frames.items).exits) code.now result self.new }
        ensures fewer { OnOk result (weight self.new ≤ weight self.old) }
    {
        match value {
            None => self.give_back(code, 0),
            Some(right) => self.right(code, right, Target::Back),
        }
    }

    /// An `if`, with an `else` or without.
    fn run_if(
        &mut self,
        code: &Code<'p>,
        test: &'p TypedExpr,
        then: &'p TypedStmt,
        other: Option<&'p TypedStmt>,
    ) -> Result<Reached, Fail>
        requires { CountsOpenCalls code.now self.old }
        ensures stands { HasComeTo (if_statement code.now.rank (calls_in code.now self.old.opens) (pure_expr test.now) (pure_stmt then.now) (option_map pure_stmt (option_copied other.entry)) self.old.state (within code.now self.old.frames.items).exits) code.now result self.new }
        ensures fewer { OnOk result (weight self.new ≤ weight self.old + 1) }
    {
        if self.state.test(Some(test))? {
            self.frames.push(ContinuationFrame::One(then))?;
            return Ok(Reached::Done);
        }
        let Some(stmt) = other else {
            return Ok(Reached::Done);
        };
        self.frames.push(ContinuationFrame::One(stmt))?;
        Ok(Reached::Done)
    }

    /// A `for`, which is a block of its own.
    fn run_for(
        &mut self,
        code: &Code<'p>,
        start: &'p TypedForStart,
        around: Loop<'p>,
    ) -> Result<Reached, Fail>
        requires counted { CountsOpenCalls code.now self.old }
        requires few { code.now.rank.ranks ≤ MOST_RANKS }
        ensures stands { HasComeTo (for_statement code.now self.old.opens (pure_start start.now) around.entry self.old.state (within code.now self.old.frames.items).exits) code.now result self.new }
        ensures fewer { OnOk result (weight self.new ≤ weight self.old + 2) }
    {
        self.frames
            .push(ContinuationFrame::Block(self.state.mark()))?;
        self.frames.push(ContinuationFrame::Repeat(around))?;
        match start {
            TypedForStart::Nothing => Ok(Reached::Done),
            TypedForStart::Declaration(declaration) => {
                take_step(&mut self.state)?;
                self.declare_all(code, &declaration.items)
            }
            TypedForStart::Simple(one) => self.simple(code, one),
        }
    }

    /// A block.
    fn run_block(&mut self, code: &Code<'p>, parts: &'p [TypedPart]) -> Result<Reached, Fail>
        requires { CountsOpenCalls code.now self.old }
        ensures stands { HasComeTo (act_parts code.now.rank (calls_in code.now self.old.opens) (pure_parts parts.now) self.old.state (leaving (stack_mark self.old.state) (within code.now self.old.frames.items).exits)) code.now result self.new }
        ensures fewer { OnOk result (weight self.new ≤ weight self.old + 2) }
    {
        self.frames
            .push(ContinuationFrame::Block(self.state.mark()))?;
        self.frames.push(ContinuationFrame::Rest(parts))?;
        Ok(Reached::Done)
    }

    /// A loop with a test before each turn.
    fn run_while(
        &mut self,
        code: &Code<'p>,
        test: &'p TypedExpr,
        body: &'p TypedStmt,
    ) -> Result<Reached, Fail>
        requires { CountsOpenCalls code.now self.old }
        ensures stands { HasComeTo (loop (Some (pure_expr test.now)) no_update (started (act code.now.rank (calls_in code.now self.old.opens) (pure_stmt body.now))) self.old.state (within code.now self.old.frames.items).exits) code.now result self.new }
        ensures fewer { OnOk result (weight self.new ≤ weight self.old + 1) }
    {
        self.frames.push(ContinuationFrame::Repeat(Loop {
            test: Some(test),
            update: None,
            body,
            turns: None,
        }))?;
        Ok(Reached::Done)
    }

    /// A loop with a turn before its first test.
    fn run_do(
        &mut self,
        code: &Code<'p>,
        test: &'p TypedExpr,
        body: &'p TypedStmt,
    ) -> Result<Reached, Fail>
        requires { CountsOpenCalls code.now self.old }
        ensures stands { HasComeTo (loop_after (pure_expr test.now) (started (act code.now.rank (calls_in code.now self.old.opens) (pure_stmt body.now))) self.old.state (within code.now self.old.frames.items).exits) code.now result self.new }
        ensures fewer { OnOk result (weight self.new ≤ weight self.old) }
    {
        take_step(&mut self.state)?;
        self.frames.push(ContinuationFrame::Repeat(Loop {
            test: Some(test),
            update: None,
            body,
            turns: None,
        }))?;
        self.frames.push(ContinuationFrame::Turn(None))?;
        self.frames.push(ContinuationFrame::One(body))?;
        Ok(Reached::Done)
    }

    /// A statement whose step is taken.
    #[tactic(auto, using(c_program::proofs::StmtViewed::stmt_views))]
    fn act(&mut self, code: &Code<'p>, stmt: &'p TypedStmt) -> Result<Reached, Fail>
        requires counted { CountsOpenCalls code.now self.old }
        requires few { code.now.rank.ranks ≤ MOST_RANKS }
        ensures stands { HasComeTo (act code.now.rank (calls_in code.now self.old.opens) (pure_stmt stmt.now) self.old.state (within code.now self.old.frames.items).exits) code.now result self.new }
        ensures fewer { OnOk result (weight self.new ≤ weight self.old + 2) }
    {
        match stmt {
            TypedStmt::Block(parts) => self.run_block(code, parts),
            TypedStmt::Empty => Ok(Reached::Done),
            TypedStmt::Simple(one) => self.simple(code, one),
            TypedStmt::Break => self.break_out(code),
            TypedStmt::Continue => self.go_again(code),
            TypedStmt::Return(value) => self.run_return(code, value),
            TypedStmt::If { test, then } => self.run_if(code, test, then, None),
            TypedStmt::IfElse { test, then, other } => self.run_if(code, test, then, Some(other)),
            TypedStmt::While { test, body } => self.run_while(code, test, body),
            TypedStmt::Do { body, test } => self.run_do(code, test, body),
            TypedStmt::For {
                start,
                test,
                step,
                body,
            } => self.run_for(
                code,
                start,
                Loop {
                    test: test.as_ref(),
                    update: step.as_ref(),
                    body,
                    turns: None,
                },
            ),
        }
    }

    /// What stands in a block, which takes a step.
    #[tactic(auto, using(c_program::proofs::StmtViewed::stmt_views))]
    fn part(&mut self, code: &Code<'p>, part: &'p TypedPart) -> Result<Reached, Fail>
        requires counted { CountsOpenCalls code.now self.old }
        requires few { code.now.rank.ranks ≤ MOST_RANKS }
        ensures stands { HasComeTo (started (act_part code.now.rank (calls_in code.now self.old.opens) (pure_part part.now)) self.old.state (within code.now self.old.frames.items).exits) code.now result self.new }
        ensures fewer { OnOk result (weight self.new + 6 ≤ weight self.old) }
    {
        take_step(&mut self.state)?;
        match part {
            TypedPart::Declaration(declaration) => self.declare_all(code, &declaration.items),
            TypedPart::Stmt(stmt) => self.act(code, stmt),
        }
    }

    /// A statement, which takes a step.
    fn statement(&mut self, code: &Code<'p>, stmt: &'p TypedStmt) -> Result<Reached, Fail>
        requires counted { CountsOpenCalls code.now self.old }
        requires few { code.now.rank.ranks ≤ MOST_RANKS }
        ensures stands { HasComeTo (started (act code.now.rank (calls_in code.now self.old.opens) (pure_stmt stmt.now)) self.old.state (within code.now self.old.frames.items).exits) code.now result self.new }
        ensures fewer { OnOk result (weight self.new + 6 ≤ weight self.old) }
    {
        take_step(&mut self.state)?;
        self.act(code, stmt)
    }

    /// The test of a loop, and its next turn.
    fn repeat(&mut self, code: &Code<'p>, around: Loop<'p>) -> Result<Reached, Fail>
        requires { CountsOpenCalls code.now self.old }
        ensures stands { HasComeTo (looping code.now self.old.opens around.entry self.old.state (within code.now self.old.frames.items).exits) code.now result self.new }
        ensures fewer { OnOk result (weight self.new ≤ weight self.old) }
    {
        let turns = turns_at(around.turns, &self.state);
        if turns == 0 {
            return Err(Fail::Trapped(Fault::Budget));
        }
        if !self.state.test(around.test)? {
            return Ok(Reached::Done);
        }
        take_step(&mut self.state)?;
        self.frames.push(ContinuationFrame::Repeat(Loop {
            test: around.test,
            update: around.update,
            body: around.body,
            turns: Some(turns - 1),
        }))?;
        self.frames.push(ContinuationFrame::Turn(around.update))?;
        self.frames.push(ContinuationFrame::One(around.body))?;
        Ok(Reached::Done)
    }

    /// What follows when the innermost place is done.
    fn resume(&mut self, code: &Code<'p>) -> Result<Reached, Fail>
        requires counted { CountsOpenCalls code.now self.old }
        requires few { code.now.rank.ranks ≤ MOST_RANKS }
        ensures stands { HasComeTo ((within code.now self.old.frames.items).exits.next self.old.state) code.now result self.new }
        ensures fewer { IfOk result (λ found. found ≡ Done → weight self.new < weight self.old) }
    {
        let Some(frame) = self.frames.pop() else {
            return Ok(Reached::Asks(Question::End));
        };
        match frame {
            ContinuationFrame::One(stmt) => self.statement(code, stmt),
            ContinuationFrame::Rest([]) => Ok(Reached::Done),
            ContinuationFrame::Rest([first, rest @ ..]) => {
                self.frames.push(ContinuationFrame::Rest(rest))?;
                self.part(code, first)
            }
            ContinuationFrame::Items(items) => self.declare_all(code, items),
            ContinuationFrame::Block(mark) => {
                self.state.leave(mark);
                Ok(Reached::Done)
            }
            ContinuationFrame::Repeat(around) => self.repeat(code, around),
            ContinuationFrame::Turn(update) => self.update(code, update),
            ContinuationFrame::Called(called) => self.come_back(code, called, 0),
        }
    }

    /// Goes on until the rank asks or has ended.
    pub fn run(&mut self, code: &Code<'p>) -> Result<Reached, Fail>
        requires counted { CountsOpenCalls code.now self.old }
        requires few { code.now.rank.ranks ≤ MOST_RANKS }
        ensures stands { HasComeTo ((within code.now self.old.frames.items).exits.next self.old.state) code.now result self.new }
        ensures stops { IfOk result (λ found. found ≢ Done) }
    {
        loop {
            match self.resume(code)? {
                Reached::Done => {}
                found => return Ok(found),
            }
        }
    }
}

/// Begins a variable; what a call gives comes later.
fn begin_value(initial: &TypedInitializer, cell: u32, state: &mut RankState) -> Result<(), Fail>
    ensures { ComesOut (begun_value (pure_initial initial.now) cell) state.old result state.new }
{
    match initial {
        TypedInitializer::Nothing | TypedInitializer::Right(TypedRight::Call(_)) => Ok(()),
        TypedInitializer::Right(TypedRight::Value(expression)) => {
            let value = state.value(expression)?;
            state.put(cell, value);
            Ok(())
        }
        TypedInitializer::Values(expressions) => put_values_of(expressions, cell, state),
    }
}

/// How many turns a loop may take, and one test more.
fn turns_at(turns: Option<u64>, state: &RankState) -> u64
    ensures { result ≡ turns_at turns state.now }
{
    match turns {
        None => state.left() as u64 + 1,
        Some(turns) => turns,
    }
}

/// The call whose value a variable begins with.
fn call_in(initial: &TypedInitializer) -> Option<&FunctionCall>
    ensures { option_map pure_call (option_copied result) ≡ initial_call (pure_initial initial.now) }
{
    match initial {
        TypedInitializer::Right(TypedRight::Call(call)) => Some(call),
        _ => None,
    }
}
