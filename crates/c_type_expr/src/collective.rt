//! Typing of calls of MPI 3.1, chapters 5 and 6: collective communication, and communicators.
ghost use Rattle.std.specs.Prelude.{map};
ghost use Rattle.c_grammar.specs.StmtView.{argument_view};
ghost use Rattle.c_names.specs.declared.function.MpiFunction.TheVariants as f;
ghost use Rattle.c_program.specs.View.{pure_mpi};
ghost use Rattle.c_scope.specs.Walks.{Walked};
ghost use Rattle.c_type_expr.specs.MpiTyping.{mpi_typing};

use crate::forms::{call_from_four, call_from_one, call_from_three, call_from_two};
use crate::mpi_arguments::CallSite;
use c_grammar::statement::Argument;
use c_program::mpi::{CollectiveCall, CommunicatorCall, MpiCall};
use c_scope::fault::TypingFault;
use std::alloc::AllocError;

impl<'a> CallSite<'a> {
    /// `MPI_Barrier`.
    pub(crate) fn barrier(
        &self,
        best: &mut Option<TypingFault>,
        given: &[&Argument],
    ) -> Result<Option<Box<MpiCall>>, AllocError>
        ensures { Walked (λ call. pure_mpi call.value) best.old best.new result (mpi_typing self.now.scope.now self.now.name f.Barrier (map (λ one. argument_view one.now) given.now)) }
    {
        match given {
            [comm] => call_from_one(
                self.alloc,
                self.comm(best, comm),
                |comm| MpiCall::Collective(CollectiveCall::Barrier { comm }),
            ),
            _ => self.wrong_count(best),
        }
    }

    /// `MPI_Bcast`.
    pub(crate) fn bcast(
        &self,
        best: &mut Option<TypingFault>,
        given: &[&Argument],
    ) -> Result<Option<Box<MpiCall>>, AllocError>
        ensures { Walked (λ call. pure_mpi call.value) best.old best.new result (mpi_typing self.now.scope.now self.now.name f.Bcast (map (λ one. argument_view one.now) given.now)) }
    {
        match given {
            [buffer, count, datatype, root, comm] => call_from_three(
                self.alloc,
                self.buffer(best, buffer, count, datatype),
                self.number(best, root),
                self.comm(best, comm),
                |buffer, root, comm| MpiCall::Collective(CollectiveCall::Bcast {
                    buffer,
                    root,
                    comm,
                }),
            ),
            _ => self.wrong_count(best),
        }
    }

    /// `MPI_Gather`.
    pub(crate) fn gather(
        &self,
        best: &mut Option<TypingFault>,
        given: &[&Argument],
    ) -> Result<Option<Box<MpiCall>>, AllocError>
        ensures { Walked (λ call. pure_mpi call.value) best.old best.new result (mpi_typing self.now.scope.now self.now.name f.Gather (map (λ one. argument_view one.now) given.now)) }
    {
        match given {
            [
                sendbuf,
                sendcount,
                sendtype,
                recvbuf,
                recvcount,
                recvtype,
                root,
                comm,
            ] => call_from_four(
                self.alloc,
                self.buffer(best, sendbuf, sendcount, sendtype),
                self.buffer(best, recvbuf, recvcount, recvtype),
                self.number(best, root),
                self.comm(best, comm),
                |send, receive, root, comm| MpiCall::Collective(CollectiveCall::Gather {
                    send,
                    receive,
                    root,
                    comm,
                }),
            ),
            _ => self.wrong_count(best),
        }
    }

    /// `MPI_Scatter`.
    pub(crate) fn scatter(
        &self,
        best: &mut Option<TypingFault>,
        given: &[&Argument],
    ) -> Result<Option<Box<MpiCall>>, AllocError>
        ensures { Walked (λ call. pure_mpi call.value) best.old best.new result (mpi_typing self.now.scope.now self.now.name f.Scatter (map (λ one. argument_view one.now) given.now)) }
    {
        match given {
            [
                sendbuf,
                sendcount,
                sendtype,
                recvbuf,
                recvcount,
                recvtype,
                root,
                comm,
            ] => call_from_four(
                self.alloc,
                self.buffer(best, sendbuf, sendcount, sendtype),
                self.buffer(best, recvbuf, recvcount, recvtype),
                self.number(best, root),
                self.comm(best, comm),
                |send, receive, root, comm| MpiCall::Collective(CollectiveCall::Scatter {
                    send,
                    receive,
                    root,
                    comm,
                }),
            ),
            _ => self.wrong_count(best),
        }
    }

    /// `MPI_Allgather`.
    pub(crate) fn allgather(
        &self,
        best: &mut Option<TypingFault>,
        given: &[&Argument],
    ) -> Result<Option<Box<MpiCall>>, AllocError>
        ensures { Walked (λ call. pure_mpi call.value) best.old best.new result (mpi_typing self.now.scope.now self.now.name f.Allgather (map (λ one. argument_view one.now) given.now)) }
    {
        match given {
            [
                sendbuf,
                sendcount,
                sendtype,
                recvbuf,
                recvcount,
                recvtype,
                comm,
            ] => call_from_three(
                self.alloc,
                self.buffer(best, sendbuf, sendcount, sendtype),
                self.buffer(best, recvbuf, recvcount, recvtype),
                self.comm(best, comm),
                |send, receive, comm| MpiCall::Collective(CollectiveCall::Allgather {
                    send,
                    receive,
                    comm,
                }),
            ),
            _ => self.wrong_count(best),
        }
    }

    /// `MPI_Alltoall`.
    pub(crate) fn alltoall(
        &self,
        best: &mut Option<TypingFault>,
        given: &[&Argument],
    ) -> Result<Option<Box<MpiCall>>, AllocError>
        ensures { Walked (λ call. pure_mpi call.value) best.old best.new result (mpi_typing self.now.scope.now self.now.name f.Alltoall (map (λ one. argument_view one.now) given.now)) }
    {
        match given {
            [
                sendbuf,
                sendcount,
                sendtype,
                recvbuf,
                recvcount,
                recvtype,
                comm,
            ] => call_from_three(
                self.alloc,
                self.buffer(best, sendbuf, sendcount, sendtype),
                self.buffer(best, recvbuf, recvcount, recvtype),
                self.comm(best, comm),
                |send, receive, comm| MpiCall::Collective(CollectiveCall::Alltoall {
                    send,
                    receive,
                    comm,
                }),
            ),
            _ => self.wrong_count(best),
        }
    }

    /// `MPI_Reduce`.
    pub(crate) fn reduce(
        &self,
        best: &mut Option<TypingFault>,
        given: &[&Argument],
    ) -> Result<Option<Box<MpiCall>>, AllocError>
        ensures { Walked (λ call. pure_mpi call.value) best.old best.new result (mpi_typing self.now.scope.now self.now.name f.Reduce (map (λ one. argument_view one.now) given.now)) }
    {
        match given {
            [sendbuf, recvbuf, count, datatype, op, root, comm] => call_from_three(
                self.alloc,
                self.reduction(best, sendbuf, recvbuf, count, datatype, op),
                self.number(best, root),
                self.comm(best, comm),
                |reduction, root, comm| MpiCall::Collective(CollectiveCall::Reduce {
                    reduction,
                    root,
                    comm,
                }),
            ),
            _ => self.wrong_count(best),
        }
    }

    /// `MPI_Allreduce`.
    pub(crate) fn allreduce(
        &self,
        best: &mut Option<TypingFault>,
        given: &[&Argument],
    ) -> Result<Option<Box<MpiCall>>, AllocError>
        ensures { Walked (λ call. pure_mpi call.value) best.old best.new result (mpi_typing self.now.scope.now self.now.name f.Allreduce (map (λ one. argument_view one.now) given.now)) }
    {
        match given {
            [sendbuf, recvbuf, count, datatype, op, comm] => call_from_two(
                self.alloc,
                self.reduction(best, sendbuf, recvbuf, count, datatype, op),
                self.comm(best, comm),
                |reduction, comm| MpiCall::Collective(CollectiveCall::Allreduce {
                    reduction,
                    comm,
                }),
            ),
            _ => self.wrong_count(best),
        }
    }

    /// `MPI_Scan`.
    pub(crate) fn scan(
        &self,
        best: &mut Option<TypingFault>,
        given: &[&Argument],
    ) -> Result<Option<Box<MpiCall>>, AllocError>
        ensures { Walked (λ call. pure_mpi call.value) best.old best.new result (mpi_typing self.now.scope.now self.now.name f.Scan (map (λ one. argument_view one.now) given.now)) }
    {
        match given {
            [sendbuf, recvbuf, count, datatype, op, comm] => call_from_two(
                self.alloc,
                self.reduction(best, sendbuf, recvbuf, count, datatype, op),
                self.comm(best, comm),
                |reduction, comm| MpiCall::Collective(CollectiveCall::Scan { reduction, comm }),
            ),
            _ => self.wrong_count(best),
        }
    }

    // ---- communicators

    /// `MPI_Comm_size`.
    pub(crate) fn comm_size(
        &self,
        best: &mut Option<TypingFault>,
        given: &[&Argument],
    ) -> Result<Option<Box<MpiCall>>, AllocError>
        ensures { Walked (λ call. pure_mpi call.value) best.old best.new result (mpi_typing self.now.scope.now self.now.name f.CommSize (map (λ one. argument_view one.now) given.now)) }
    {
        match given {
            [comm, size] => call_from_two(
                self.alloc,
                self.comm(best, comm),
                self.ints(best, size),
                |comm, size| MpiCall::Communicator(CommunicatorCall::Size { comm, size }),
            ),
            _ => self.wrong_count(best),
        }
    }

    /// `MPI_Comm_rank`.
    pub(crate) fn comm_rank(
        &self,
        best: &mut Option<TypingFault>,
        given: &[&Argument],
    ) -> Result<Option<Box<MpiCall>>, AllocError>
        ensures { Walked (λ call. pure_mpi call.value) best.old best.new result (mpi_typing self.now.scope.now self.now.name f.CommRank (map (λ one. argument_view one.now) given.now)) }
    {
        match given {
            [comm, rank] => call_from_two(
                self.alloc,
                self.comm(best, comm),
                self.ints(best, rank),
                |comm, rank| MpiCall::Communicator(CommunicatorCall::Rank { comm, rank }),
            ),
            _ => self.wrong_count(best),
        }
    }

    /// `MPI_Comm_dup`.
    pub(crate) fn comm_dup(
        &self,
        best: &mut Option<TypingFault>,
        given: &[&Argument],
    ) -> Result<Option<Box<MpiCall>>, AllocError>
        ensures { Walked (λ call. pure_mpi call.value) best.old best.new result (mpi_typing self.now.scope.now self.now.name f.CommDup (map (λ one. argument_view one.now) given.now)) }
    {
        match given {
            [comm, newcomm] => call_from_two(
                self.alloc,
                self.comm(best, comm),
                self.newcomm(best, newcomm),
                |comm, made| MpiCall::Communicator(CommunicatorCall::Dup { comm, made }),
            ),
            _ => self.wrong_count(best),
        }
    }

    /// `MPI_Comm_split`.
    pub(crate) fn comm_split(
        &self,
        best: &mut Option<TypingFault>,
        given: &[&Argument],
    ) -> Result<Option<Box<MpiCall>>, AllocError>
        ensures { Walked (λ call. pure_mpi call.value) best.old best.new result (mpi_typing self.now.scope.now self.now.name f.CommSplit (map (λ one. argument_view one.now) given.now)) }
    {
        match given {
            [comm, color, key, newcomm] => call_from_four(
                self.alloc,
                self.comm(best, comm),
                self.number(best, color),
                self.number(best, key),
                self.newcomm(best, newcomm),
                |comm, color, key, made| MpiCall::Communicator(CommunicatorCall::Split {
                    comm,
                    color,
                    key,
                    made,
                }),
            ),
            _ => self.wrong_count(best),
        }
    }

    /// `MPI_Comm_free`.
    pub(crate) fn comm_free(
        &self,
        best: &mut Option<TypingFault>,
        given: &[&Argument],
    ) -> Result<Option<Box<MpiCall>>, AllocError>
        ensures { Walked (λ call. pure_mpi call.value) best.old best.new result (mpi_typing self.now.scope.now self.now.name f.CommFree (map (λ one. argument_view one.now) given.now)) }
    {
        match given {
            [comm] => call_from_one(
                self.alloc,
                self.newcomm(best, comm),
                |comm| MpiCall::Communicator(CommunicatorCall::Free { comm }),
            ),
            _ => self.wrong_count(best),
        }
    }
}
