//! Typing of calls of MPI 3.1, chapter 3, "Point-to-Point Communication": sends, receives, completions and probes.
ghost use Rattle.std.specs.Prelude.{map};
ghost use Rattle.c_grammar.specs.StmtView.{argument_view};
ghost use Rattle.c_names.specs.declared.function.MpiFunction.TheVariants as f;
ghost use Rattle.c_program.specs.View.{pure_mpi};
ghost use Rattle.c_scope.specs.Walks.{Walked};
ghost use Rattle.c_type_expr.specs.MpiTyping.{mpi_typing};

use crate::forms::{call_from_five, call_from_four, call_from_one, call_from_three, call_from_two};
use crate::mpi_arguments::CallSite;
use c_grammar::statement::Argument;
use c_program::mpi::{CompletionCall, MessageCall, MpiCall, ProbeCall};
use c_scope::fault::TypingFault;
use std::alloc::AllocError;

impl<'a> CallSite<'a> {
    /// `MPI_Send`.
    pub(crate) fn send(
        &self,
        best: &mut Option<TypingFault>,
        given: &[&Argument],
    ) -> Result<Option<Box<MpiCall>>, AllocError>
        ensures { Walked (λ call. pure_mpi call.value) best.old best.new result (mpi_typing self.now.scope.now self.now.name f.Send (map (λ one. argument_view one.now) given.now)) }
    {
        match given {
            [buf, count, datatype, dest, tag, comm] => call_from_two(
                self.alloc,
                self.outgoing(best, buf, count, datatype, dest, tag),
                self.comm(best, comm),
                |message, comm| MpiCall::Message(MessageCall::Send { message, comm }),
            ),
            _ => self.wrong_count(best),
        }
    }

    /// `MPI_Ssend`.
    pub(crate) fn ssend(
        &self,
        best: &mut Option<TypingFault>,
        given: &[&Argument],
    ) -> Result<Option<Box<MpiCall>>, AllocError>
        ensures { Walked (λ call. pure_mpi call.value) best.old best.new result (mpi_typing self.now.scope.now self.now.name f.Ssend (map (λ one. argument_view one.now) given.now)) }
    {
        match given {
            [buf, count, datatype, dest, tag, comm] => call_from_two(
                self.alloc,
                self.outgoing(best, buf, count, datatype, dest, tag),
                self.comm(best, comm),
                |message, comm| MpiCall::Message(MessageCall::Ssend { message, comm }),
            ),
            _ => self.wrong_count(best),
        }
    }

    /// `MPI_Recv`.
    pub(crate) fn recv(
        &self,
        best: &mut Option<TypingFault>,
        given: &[&Argument],
    ) -> Result<Option<Box<MpiCall>>, AllocError>
        ensures { Walked (λ call. pure_mpi call.value) best.old best.new result (mpi_typing self.now.scope.now self.now.name f.Recv (map (λ one. argument_view one.now) given.now)) }
    {
        match given {
            [buf, count, datatype, source, tag, comm, status] => call_from_three(
                self.alloc,
                self.incoming(best, buf, count, datatype, source, tag),
                self.comm(best, comm),
                self.status(best, status),
                |message, comm, status| MpiCall::Message(MessageCall::Recv {
                    message,
                    comm,
                    status,
                }),
            ),
            _ => self.wrong_count(best),
        }
    }

    /// `MPI_Isend`.
    pub(crate) fn isend(
        &self,
        best: &mut Option<TypingFault>,
        given: &[&Argument],
    ) -> Result<Option<Box<MpiCall>>, AllocError>
        ensures { Walked (λ call. pure_mpi call.value) best.old best.new result (mpi_typing self.now.scope.now self.now.name f.Isend (map (λ one. argument_view one.now) given.now)) }
    {
        match given {
            [buf, count, datatype, dest, tag, comm, request] => call_from_three(
                self.alloc,
                self.outgoing(best, buf, count, datatype, dest, tag),
                self.comm(best, comm),
                self.requests(best, request),
                |message, comm, request| MpiCall::Message(MessageCall::Isend {
                    message,
                    comm,
                    request,
                }),
            ),
            _ => self.wrong_count(best),
        }
    }

    /// `MPI_Issend`.
    pub(crate) fn issend(
        &self,
        best: &mut Option<TypingFault>,
        given: &[&Argument],
    ) -> Result<Option<Box<MpiCall>>, AllocError>
        ensures { Walked (λ call. pure_mpi call.value) best.old best.new result (mpi_typing self.now.scope.now self.now.name f.Issend (map (λ one. argument_view one.now) given.now)) }
    {
        match given {
            [buf, count, datatype, dest, tag, comm, request] => call_from_three(
                self.alloc,
                self.outgoing(best, buf, count, datatype, dest, tag),
                self.comm(best, comm),
                self.requests(best, request),
                |message, comm, request| MpiCall::Message(MessageCall::Issend {
                    message,
                    comm,
                    request,
                }),
            ),
            _ => self.wrong_count(best),
        }
    }

    /// `MPI_Irecv`.
    pub(crate) fn irecv(
        &self,
        best: &mut Option<TypingFault>,
        given: &[&Argument],
    ) -> Result<Option<Box<MpiCall>>, AllocError>
        ensures { Walked (λ call. pure_mpi call.value) best.old best.new result (mpi_typing self.now.scope.now self.now.name f.Irecv (map (λ one. argument_view one.now) given.now)) }
    {
        match given {
            [buf, count, datatype, source, tag, comm, request] => call_from_three(
                self.alloc,
                self.incoming(best, buf, count, datatype, source, tag),
                self.comm(best, comm),
                self.requests(best, request),
                |message, comm, request| MpiCall::Message(MessageCall::Irecv {
                    message,
                    comm,
                    request,
                }),
            ),
            _ => self.wrong_count(best),
        }
    }

    /// `MPI_Sendrecv`.
    pub(crate) fn sendrecv(
        &self,
        best: &mut Option<TypingFault>,
        given: &[&Argument],
    ) -> Result<Option<Box<MpiCall>>, AllocError>
        ensures { Walked (λ call. pure_mpi call.value) best.old best.new result (mpi_typing self.now.scope.now self.now.name f.Sendrecv (map (λ one. argument_view one.now) given.now)) }
    {
        match given {
            [
                sendbuf,
                sendcount,
                sendtype,
                dest,
                sendtag,
                recvbuf,
                recvcount,
                recvtype,
                source,
                recvtag,
                comm,
                status,
            ] => call_from_four(
                self.alloc,
                self.outgoing(best, sendbuf, sendcount, sendtype, dest, sendtag),
                self.incoming(best, recvbuf, recvcount, recvtype, source, recvtag),
                self.comm(best, comm),
                self.status(best, status),
                |send, receive, comm, status| MpiCall::Message(MessageCall::Sendrecv {
                    send,
                    receive,
                    comm,
                    status,
                }),
            ),
            _ => self.wrong_count(best),
        }
    }

    // ---- completions

    /// `MPI_Wait`.
    pub(crate) fn wait(
        &self,
        best: &mut Option<TypingFault>,
        given: &[&Argument],
    ) -> Result<Option<Box<MpiCall>>, AllocError>
        ensures { Walked (λ call. pure_mpi call.value) best.old best.new result (mpi_typing self.now.scope.now self.now.name f.Wait (map (λ one. argument_view one.now) given.now)) }
    {
        match given {
            [request, status] => call_from_two(
                self.alloc,
                self.requests(best, request),
                self.status(best, status),
                |request, status| MpiCall::Completion(CompletionCall::Wait { request, status }),
            ),
            _ => self.wrong_count(best),
        }
    }

    /// `MPI_Test`.
    pub(crate) fn test(
        &self,
        best: &mut Option<TypingFault>,
        given: &[&Argument],
    ) -> Result<Option<Box<MpiCall>>, AllocError>
        ensures { Walked (λ call. pure_mpi call.value) best.old best.new result (mpi_typing self.now.scope.now self.now.name f.Test (map (λ one. argument_view one.now) given.now)) }
    {
        match given {
            [request, flag, status] => call_from_three(
                self.alloc,
                self.requests(best, request),
                self.ints(best, flag),
                self.status(best, status),
                |request, flag, status| MpiCall::Completion(CompletionCall::Test {
                    request,
                    flag,
                    status,
                }),
            ),
            _ => self.wrong_count(best),
        }
    }

    /// `MPI_Waitany`.
    pub(crate) fn waitany(
        &self,
        best: &mut Option<TypingFault>,
        given: &[&Argument],
    ) -> Result<Option<Box<MpiCall>>, AllocError>
        ensures { Walked (λ call. pure_mpi call.value) best.old best.new result (mpi_typing self.now.scope.now self.now.name f.Waitany (map (λ one. argument_view one.now) given.now)) }
    {
        match given {
            [count, requests, index, status] => call_from_four(
                self.alloc,
                self.number(best, count),
                self.requests(best, requests),
                self.ints(best, index),
                self.status(best, status),
                |count, requests, index, status| MpiCall::Completion(CompletionCall::Waitany {
                    count,
                    requests,
                    index,
                    status,
                }),
            ),
            _ => self.wrong_count(best),
        }
    }

    /// `MPI_Testany`.
    pub(crate) fn testany(
        &self,
        best: &mut Option<TypingFault>,
        given: &[&Argument],
    ) -> Result<Option<Box<MpiCall>>, AllocError>
        ensures { Walked (λ call. pure_mpi call.value) best.old best.new result (mpi_typing self.now.scope.now self.now.name f.Testany (map (λ one. argument_view one.now) given.now)) }
    {
        match given {
            [count, requests, index, flag, status] => call_from_five(
                self.alloc,
                self.number(best, count),
                self.requests(best, requests),
                self.ints(best, index),
                self.ints(best, flag),
                self.status(best, status),
                |count, requests, index, flag, status| MpiCall::Completion(
                    CompletionCall::Testany {
                        count,
                        requests,
                        index,
                        flag,
                        status,
                    },
                ),
            ),
            _ => self.wrong_count(best),
        }
    }

    /// `MPI_Waitall`.
    pub(crate) fn waitall(
        &self,
        best: &mut Option<TypingFault>,
        given: &[&Argument],
    ) -> Result<Option<Box<MpiCall>>, AllocError>
        ensures { Walked (λ call. pure_mpi call.value) best.old best.new result (mpi_typing self.now.scope.now self.now.name f.Waitall (map (λ one. argument_view one.now) given.now)) }
    {
        match given {
            [count, requests, statuses] => call_from_three(
                self.alloc,
                self.number(best, count),
                self.requests(best, requests),
                self.statuses(best, statuses),
                |count, requests, statuses| MpiCall::Completion(CompletionCall::Waitall {
                    count,
                    requests,
                    statuses,
                }),
            ),
            _ => self.wrong_count(best),
        }
    }

    /// `MPI_Testall`.
    pub(crate) fn testall(
        &self,
        best: &mut Option<TypingFault>,
        given: &[&Argument],
    ) -> Result<Option<Box<MpiCall>>, AllocError>
        ensures { Walked (λ call. pure_mpi call.value) best.old best.new result (mpi_typing self.now.scope.now self.now.name f.Testall (map (λ one. argument_view one.now) given.now)) }
    {
        match given {
            [count, requests, flag, statuses] => call_from_four(
                self.alloc,
                self.number(best, count),
                self.requests(best, requests),
                self.ints(best, flag),
                self.statuses(best, statuses),
                |count, requests, flag, statuses| MpiCall::Completion(CompletionCall::Testall {
                    count,
                    requests,
                    flag,
                    statuses,
                }),
            ),
            _ => self.wrong_count(best),
        }
    }

    /// `MPI_Waitsome`.
    pub(crate) fn waitsome(
        &self,
        best: &mut Option<TypingFault>,
        given: &[&Argument],
    ) -> Result<Option<Box<MpiCall>>, AllocError>
        ensures { Walked (λ call. pure_mpi call.value) best.old best.new result (mpi_typing self.now.scope.now self.now.name f.Waitsome (map (λ one. argument_view one.now) given.now)) }
    {
        match given {
            [incount, requests, outcount, indices, statuses] => call_from_one(
                self.alloc,
                self.several(best, incount, requests, outcount, indices, statuses),
                |several| MpiCall::Completion(CompletionCall::Waitsome(several)),
            ),
            _ => self.wrong_count(best),
        }
    }

    /// `MPI_Testsome`.
    pub(crate) fn testsome(
        &self,
        best: &mut Option<TypingFault>,
        given: &[&Argument],
    ) -> Result<Option<Box<MpiCall>>, AllocError>
        ensures { Walked (λ call. pure_mpi call.value) best.old best.new result (mpi_typing self.now.scope.now self.now.name f.Testsome (map (λ one. argument_view one.now) given.now)) }
    {
        match given {
            [incount, requests, outcount, indices, statuses] => call_from_one(
                self.alloc,
                self.several(best, incount, requests, outcount, indices, statuses),
                |several| MpiCall::Completion(CompletionCall::Testsome(several)),
            ),
            _ => self.wrong_count(best),
        }
    }

    // ---- probes, and what a status tells

    /// `MPI_Probe`.
    pub(crate) fn probe(
        &self,
        best: &mut Option<TypingFault>,
        given: &[&Argument],
    ) -> Result<Option<Box<MpiCall>>, AllocError>
        ensures { Walked (λ call. pure_mpi call.value) best.old best.new result (mpi_typing self.now.scope.now self.now.name f.Probe (map (λ one. argument_view one.now) given.now)) }
    {
        match given {
            [source, tag, comm, status] => call_from_four(
                self.alloc,
                self.number(best, source),
                self.number(best, tag),
                self.comm(best, comm),
                self.status(best, status),
                |source, tag, comm, status| MpiCall::Probe(ProbeCall::Probe {
                    source,
                    tag,
                    comm,
                    status,
                }),
            ),
            _ => self.wrong_count(best),
        }
    }

    /// `MPI_Iprobe`.
    pub(crate) fn iprobe(
        &self,
        best: &mut Option<TypingFault>,
        given: &[&Argument],
    ) -> Result<Option<Box<MpiCall>>, AllocError>
        ensures { Walked (λ call. pure_mpi call.value) best.old best.new result (mpi_typing self.now.scope.now self.now.name f.Iprobe (map (λ one. argument_view one.now) given.now)) }
    {
        match given {
            [source, tag, comm, flag, status] => call_from_five(
                self.alloc,
                self.number(best, source),
                self.number(best, tag),
                self.comm(best, comm),
                self.ints(best, flag),
                self.status(best, status),
                |source, tag, comm, flag, status| MpiCall::Probe(ProbeCall::Iprobe {
                    source,
                    tag,
                    comm,
                    flag,
                    status,
                }),
            ),
            _ => self.wrong_count(best),
        }
    }

    /// `MPI_Get_count`.
    pub(crate) fn get_count(
        &self,
        best: &mut Option<TypingFault>,
        given: &[&Argument],
    ) -> Result<Option<Box<MpiCall>>, AllocError>
        ensures { Walked (λ call. pure_mpi call.value) best.old best.new result (mpi_typing self.now.scope.now self.now.name f.GetCount (map (λ one. argument_view one.now) given.now)) }
    {
        match given {
            [status, datatype, count] => call_from_three(
                self.alloc,
                self.status(best, status),
                self.datatype(best, datatype),
                self.ints(best, count),
                |status, (), count| MpiCall::Probe(ProbeCall::GetCount { status, count }),
            ),
            _ => self.wrong_count(best),
        }
    }
}
