//! Typing of calls of MPI functions, by the function.
ghost use Rattle.std.specs.Prelude.{map};
ghost use Rattle.c_grammar.specs.StmtView.{argument_view};
ghost use Rattle.c_names.specs.declared.function.MpiFunction.TheVariants as f;
ghost use Rattle.c_program.specs.View.{pure_mpi};
ghost use Rattle.c_scope.specs.Walks.{Walked};
ghost use Rattle.c_type_expr.specs.MpiTyping.{init_typing, mpi_typing};

use crate::forms::{boxed, call_from_two};
use crate::mpi_arguments::CallSite;
use c_grammar::statement::Argument;
use c_grammar::terminal::Span;
use c_names::function::MpiFunction;
use c_program::mpi::MpiCall;
use c_scope::fault::TypingFault;
use c_scope::scope::Scope;
use std::alloc::{AllocError, Global};

impl<'a> CallSite<'a> {
    /// `NULL` twice, or main's own parameters.
    fn init_arguments(
        &self,
        best: &mut Option<TypingFault>,
        argc: &Argument,
        argv: &Argument,
    ) -> Result<Option<Box<MpiCall>>, AllocError>
        ensures { Walked (λ call. pure_mpi call.value) best.old best.new result (init_typing self.now.scope.now (argument_view argc.now) (argument_view argv.now)) }
    {
        if self.is_null(argc) {
            return call_from_two(
                self.alloc,
                self.null(best, argc),
                self.null(best, argv),
                |_, _| { MpiCall::Init },
            );
        }
        call_from_two(
            self.alloc,
            self.argc(best, argc),
            self.argv(best, argv),
            |_, _| { MpiCall::Init },
        )
    }

    /// `MPI_Init`.
    fn init(
        &self,
        best: &mut Option<TypingFault>,
        given: &[&Argument],
    ) -> Result<Option<Box<MpiCall>>, AllocError>
        ensures { Walked (λ call. pure_mpi call.value) best.old best.new result (mpi_typing self.now.scope.now self.now.name f.Init (map (λ one. argument_view one.now) given.now)) }
    {
        match given {
            [argc, argv] => self.init_arguments(best, argc, argv),
            _ => self.wrong_count(best),
        }
    }

    /// `MPI_Finalize`.
    fn finalize(
        &self,
        best: &mut Option<TypingFault>,
        given: &[&Argument],
    ) -> Result<Option<Box<MpiCall>>, AllocError>
        ensures { Walked (λ call. pure_mpi call.value) best.old best.new result (mpi_typing self.now.scope.now self.now.name f.Finalize (map (λ one. argument_view one.now) given.now)) }
    {
        match given {
            [] => boxed(self.alloc, MpiCall::Finalize),
            _ => self.wrong_count(best),
        }
    }

    /// `MPI_Abort`.
    fn abort(
        &self,
        best: &mut Option<TypingFault>,
        given: &[&Argument],
    ) -> Result<Option<Box<MpiCall>>, AllocError>
        ensures { Walked (λ call. pure_mpi call.value) best.old best.new result (mpi_typing self.now.scope.now self.now.name f.Abort (map (λ one. argument_view one.now) given.now)) }
    {
        match given {
            [comm, errorcode] => call_from_two(
                self.alloc,
                self.comm(best, comm),
                self.number(best, errorcode),
                |comm, code| MpiCall::Abort { comm, code },
            ),
            _ => self.wrong_count(best),
        }
    }

    /// A call of an MPI function.
    pub(crate) fn mpi(
        &self,
        best: &mut Option<TypingFault>,
        function: MpiFunction,
        given: &[&Argument],
    ) -> Result<Option<Box<MpiCall>>, AllocError>
        ensures { Walked (λ call. pure_mpi call.value) best.old best.new result (mpi_typing self.now.scope.now self.now.name function (map (λ one. argument_view one.now) given.now)) }
    {
        match function {
            MpiFunction::Init => self.init(best, given),
            MpiFunction::Finalize => self.finalize(best, given),
            MpiFunction::Abort => self.abort(best, given),
            MpiFunction::Send => self.send(best, given),
            MpiFunction::Ssend => self.ssend(best, given),
            MpiFunction::Recv => self.recv(best, given),
            MpiFunction::Isend => self.isend(best, given),
            MpiFunction::Issend => self.issend(best, given),
            MpiFunction::Irecv => self.irecv(best, given),
            MpiFunction::Sendrecv => self.sendrecv(best, given),
            MpiFunction::Wait => self.wait(best, given),
            MpiFunction::Test => self.test(best, given),
            MpiFunction::Waitany => self.waitany(best, given),
            MpiFunction::Testany => self.testany(best, given),
            MpiFunction::Waitall => self.waitall(best, given),
            MpiFunction::Testall => self.testall(best, given),
            MpiFunction::Waitsome => self.waitsome(best, given),
            MpiFunction::Testsome => self.testsome(best, given),
            MpiFunction::Probe => self.probe(best, given),
            MpiFunction::Iprobe => self.iprobe(best, given),
            MpiFunction::GetCount => self.get_count(best, given),
            MpiFunction::Barrier => self.barrier(best, given),
            MpiFunction::Bcast => self.bcast(best, given),
            MpiFunction::Gather => self.gather(best, given),
            MpiFunction::Scatter => self.scatter(best, given),
            MpiFunction::Allgather => self.allgather(best, given),
            MpiFunction::Alltoall => self.alltoall(best, given),
            MpiFunction::Reduce => self.reduce(best, given),
            MpiFunction::Allreduce => self.allreduce(best, given),
            MpiFunction::Scan => self.scan(best, given),
            MpiFunction::CommSize => self.comm_size(best, given),
            MpiFunction::CommRank => self.comm_rank(best, given),
            MpiFunction::CommDup => self.comm_dup(best, given),
            MpiFunction::CommSplit => self.comm_split(best, given),
            MpiFunction::CommFree => self.comm_free(best, given),
        }
    }
}

/// A call of an MPI function.
pub fn mpi_of(
    alloc: Global,
    scope: &Scope,
    best: &mut Option<TypingFault>,
    name: Span,
    function: MpiFunction,
    given: &[&Argument],
) -> Result<Option<Box<MpiCall>>, AllocError>
    ensures { Walked (λ call. pure_mpi call.value) best.old best.new result (mpi_typing scope.now name function (map (λ one. argument_view one.now) given.now)) }
{
    let site = CallSite { alloc, scope, name };
    site.mpi(best, function, given)
}
