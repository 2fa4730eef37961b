//! Programs, and ranks that run them.
ghost use Rattle.std.specs.Prelude.{◌≡◌, ◌++◌, ◌∷◌, [], IfOk, OnOk, OnErr, ℕ, List, Option, Some, true, false};
ghost use Rattle.mpi_call.specs.declared.call.Call.{Call};
ghost use Rattle.mpi_call.specs.declared.reply.Reply.{Reply};
ghost use Rattle.run_model.specs.declared.lists.Variable.{Variable};
ghost use Rattle.run_model.specs.Program.{Standing, Says, MayGive, EndsExactly, PrintsOn, AsksInBounds, EntersInForm};

use crate::lists::Variables;
use mpi_call::call::Call;
use mpi_call::reply::Reply;
use std::alloc::AllocError;

/// A program, as functions of the number of ranks, a rank, and the replies that it got so far.
pub trait Program {
    /// The call that the rank makes next, or nothing once it has ended.
    ghost next: { Self → ℕ → ℕ → List Reply → Option Call };

    /// What the rank has printed before that call.
    ghost output: { Self → ℕ → ℕ → List Reply → List ℕ };

    /// What stands before that call.
    ghost variables: { Self → ℕ → ℕ → List Reply → List Variable };

    /// A rank has ended if and only if it got Done to End, or Stopped.
    ghost ends_exactly: { (p : Self) → EndsExactly (next p) };

    /// What is printed stays printed.
    ghost prints_on: { (p : Self) → PrintsOn (next p) (output p) };

    /// Ranks, tags, lengths and lists of starts are in bounds.
    ghost asks_in_bounds: { (p : Self) → AsksInBounds (next p) };

    /// Each Enter is on a communicator that the rank knows, and as the tables of the collectives state.
    ghost enters_in_form: { (p : Self) → EntersInForm (next p) };
}

/// What a rank wants.
#[derive(Drop)]
pub enum Want {
    /// A reply to this call.
    Ask(Call),
    /// Nothing: it has ended.
    Ended,
}

/// A rank that runs a program, and waits for the reply to each call.
pub trait RankRun: Drop {
    type Of: Program;

    /// The program, the number of ranks, the rank, the replies that it got, and whether its next call was handed out.
    ghost standing: { Self → Standing Self.Of };

    /// The rank's next call.
    fn want(&mut self) -> Result<Want, AllocError>
        ensures says { IfOk result (λ w. Says w (Self.Of.next (standing self.old).program (standing self.old).ranks (standing self.old).rank (standing self.old).replies)) }
        ensures ok { OnOk result (standing self.new ≡ record (standing self.old) { asked = true }) }
        ensures err { OnErr result (standing self.new ≡ standing self.old) };

    /// Gives the reply to the call that was handed out; it has to have that call's shape.
    fn give(&mut self, reply: &Reply) -> Result<(), AllocError>
        requires asked { (standing self.old).asked ≡ true }
        requires shape { MayGive (Self.Of.next (standing self.old).program) (standing self.old).ranks (standing self.old).rank (standing self.old).replies reply.now }
        ensures ok { OnOk result (standing self.new ≡ record (standing self.old) { replies = (standing self.old).replies ++ reply.now ∷ []; asked = false }) }
        ensures err { OnErr result (standing self.new ≡ standing self.old) };

    /// What the rank has printed before the call that was handed out. Takes no memory.
    fn printed(&self) -> &[u8]
        requires { (standing self.now).asked ≡ true }
        ensures { result.now ≡ Self.Of.output (standing self.now).program (standing self.now).ranks (standing self.now).rank (standing self.now).replies };

    /// The variables that stand before that call.
    fn variables(&self) -> Result<Variables, AllocError>
        requires asked { (standing self.now).asked ≡ true }
        requires live { (call : Call) × (Self.Of.next (standing self.now).program (standing self.now).ranks (standing self.now).rank (standing self.now).replies ≡ Some call) }
        ensures { IfOk result (λ found. found ≡ Self.Of.variables (standing self.now).program (standing self.now).ranks (standing self.now).rank (standing self.now).replies) };
}
