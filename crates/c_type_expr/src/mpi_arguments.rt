//! Typing of the arguments of MPI functions, each by what it has to be, and of those that stand together.
ghost use Rattle.std.specs.Prelude.{◌≡◌, MatchOption, None, Some, option_map};
ghost use Rattle.c_grammar.specs.StmtView.{argument_view};
ghost use Rattle.c_grammar.specs.Tree as t;
ghost use Rattle.c_grammar.specs.declared.terminal.Span.{Span};
ghost use Rattle.c_lex.specs.declared.fault.Why.TheVariants.{WrongCount};
ghost use Rattle.c_names.specs.declared.kind.VariableKind.TheVariants.{Status};
ghost use Rattle.c_program.specs.View.{pure_buffer, pure_expr, pure_incoming, pure_mpi, pure_outgoing, pure_reduction, pure_reference, pure_several};
ghost use Rattle.c_scope.specs.Scopes.{meaning};
ghost use Rattle.c_scope.specs.Typing.{onto, refused};
ghost use Rattle.c_scope.specs.Walks.{Gives, Walked};
ghost use Rattle.c_type_expr.specs.ExprTyping.{misfit_typing, reference_typing};
ghost use Rattle.c_type_expr.specs.MpiTyping.{argc_meant, argc_typing, argv_meant, argv_typing, buffer_typing, comm_typing, datatype_meant, datatype_typing, incoming_typing, ints_typing, is_null, is_null_meant, newcomm_typing, null_meant, null_typing, number_typing, op_meant, op_typing, outgoing_typing, reduction_typing, requests_typing, several_typing, status_typing, statuses_typing};

use crate::argument::{buf_of, misfit_of, name_given, reference_of, value_of};
use crate::forms::{five, made, three};
use c_grammar::statement::Argument;
use c_grammar::terminal::Span;
use c_grammar::tree;
use c_lex::Why;
use c_names::kind::VariableKind;
use c_names::predefined::Predefined;
use c_program::expr::{Reference, TypedExpr};
use c_program::mpi::{Buffer, Incoming, MpiCall, Outgoing, Reduction, SomeRequests};
use c_scope::fault::TypingFault;
use c_scope::meaning::{Entity, ExprKind, Meaning};
use c_scope::refusals::{refused, unfit};
use c_scope::scope::Scope;
use mpi_call::call::Op;
use std::alloc::{AllocError, Global};

// ---- names after `&`

/// The `&` and the name that an argument is, if it is a name alone after `&`.
#[tactic(auto, using(c_grammar::proofs::Viewed::views))]
fn address_alone(given: &Argument) -> Option<(Span, Span)>
    ensures { MatchOption result ((mark name : Span) → argument_view given.now ≡ t.address mark (t.whole name) → ⊥) (λ both. argument_view given.now ≡ t.address both.0 (t.whole both.1)) }
{
    match given {
        Argument::Text(_) => None,
        Argument::Address { mark, place } => match place {
            tree::Place::Whole(name) => Some((*mark, *name)),
            tree::Place::Cell { .. } => None,
        },
        Argument::Value(_) => None,
    }
}

/// `MPI_INT`.
fn datatype_meant(best: &mut Option<TypingFault>, name: Span, meaning: Meaning) -> Option<()>
    ensures { Gives best.old best.new result (datatype_meant name meaning) }
{
    match meaning {
        Meaning::Known(Predefined::Datatype) => Some(()),
        _ => unfit(best, name, name, meaning),
    }
}

/// One of the reduction operations.
fn op_meant(best: &mut Option<TypingFault>, name: Span, meaning: Meaning) -> Option<Op>
    ensures { Gives best.old best.new result (op_meant name meaning) }
{
    match meaning {
        Meaning::Known(Predefined::Operation(op)) => Some(op),
        _ => unfit(best, name, name, meaning),
    }
}

/// `NULL`.
fn null_meant(best: &mut Option<TypingFault>, name: Span, meaning: Meaning) -> Option<()>
    ensures { Gives best.old best.new result (null_meant name meaning) }
{
    match meaning {
        Meaning::Known(Predefined::NoReference) => Some(()),
        _ => unfit(best, name, name, meaning),
    }
}

/// main's own int parameter after `&`.
fn argc_meant(
    best: &mut Option<TypingFault>,
    mark: Span,
    name: Span,
    meaning: Meaning,
) -> Option<()>
    ensures { Gives best.old best.new result (argc_meant mark name meaning) }
{
    match meaning {
        Meaning::Declared(Entity::ArgumentCount) => Some(()),
        _ => unfit(best, mark, name, meaning),
    }
}

/// main's own `char` parameter after `&`.
fn argv_meant(
    best: &mut Option<TypingFault>,
    mark: Span,
    name: Span,
    meaning: Meaning,
) -> Option<()>
    ensures { Gives best.old best.new result (argv_meant mark name meaning) }
{
    match meaning {
        Meaning::Declared(Entity::ArgumentTexts) => Some(()),
        _ => unfit(best, mark, name, meaning),
    }
}

/// `NULL`, or a name without a meaning, which may be it.
fn is_null_meant(meaning: Meaning) -> bool
    ensures { result ≡ is_null_meant meaning }
{
    match meaning {
        Meaning::Known(Predefined::NoReference) => true,
        Meaning::LeftOut | Meaning::Unknown => true,
        _ => false,
    }
}

// ---- one argument

/// Where a call stands: its scope, and its name.
#[derive(Clone, Copy)]
pub(crate) struct CallSite<'a> {
    pub(crate) alloc: Global,
    pub(crate) scope: &'a Scope<'a>,
    pub(crate) name: Span,
}

impl<'a> CallSite<'a> {
    /// A wrong number of arguments.
    pub(crate) fn wrong_count(
        &self,
        best: &mut Option<TypingFault>,
    ) -> Result<Option<Box<MpiCall>>, AllocError>
        ensures { Walked (λ call. pure_mpi call.value) best.old best.new result (refused self.now.name WrongCount) }
    {
        Ok(refused(best, self.name, Why::WrongCount))
    }

    /// An argument that is not what is wanted.
    fn misfit<T: Drop>(
        &self,
        best: &mut Option<TypingFault>,
        given: &Argument,
    ) -> Result<Option<T>, AllocError>
        ensures { Walked (λ form. form) best.old best.new result (misfit_typing self.now.scope.now (argument_view given.now)) }
    {
        misfit_of(self.alloc, self.scope, best, given)
    }

    /// An int.
    pub(crate) fn number(
        &self,
        best: &mut Option<TypingFault>,
        given: &Argument,
    ) -> Result<Option<TypedExpr>, AllocError>
        ensures { Walked pure_expr best.old best.new result (number_typing self.now.scope.now (argument_view given.now)) }
    {
        let int = ExprKind::Of(VariableKind::Int);
        value_of(self.alloc, self.scope, best, int, given)
    }

    /// A communicator.
    pub(crate) fn comm(
        &self,
        best: &mut Option<TypingFault>,
        comm: &Argument,
    ) -> Result<Option<TypedExpr>, AllocError>
        ensures { Walked pure_expr best.old best.new result (comm_typing self.now.scope.now (argument_view comm.now)) }
    {
        let communicator = ExprKind::Of(VariableKind::Communicator);
        value_of(self.alloc, self.scope, best, communicator, comm)
    }

    /// Ints that take an answer.
    pub(crate) fn ints(
        &self,
        best: &mut Option<TypingFault>,
        given: &Argument,
    ) -> Result<Option<Reference>, AllocError>
        ensures { Walked pure_reference best.old best.new result (ints_typing self.now.scope.now (argument_view given.now)) }
    {
        reference_of(self.alloc, self.scope, best, VariableKind::Int, given)
    }

    pub(crate) fn requests(
        &self,
        best: &mut Option<TypingFault>,
        given: &Argument,
    ) -> Result<Option<Reference>, AllocError>
        ensures { Walked pure_reference best.old best.new result (requests_typing self.now.scope.now (argument_view given.now)) }
    {
        reference_of(self.alloc, self.scope, best, VariableKind::Request, given)
    }

    /// A communicator that takes an answer.
    pub(crate) fn newcomm(
        &self,
        best: &mut Option<TypingFault>,
        newcomm: &Argument,
    ) -> Result<Option<Reference>, AllocError>
        ensures { Walked pure_reference best.old best.new result (newcomm_typing self.now.scope.now (argument_view newcomm.now)) }
    {
        reference_of(
            self.alloc,
            self.scope,
            best,
            VariableKind::Communicator,
            newcomm,
        )
    }

    /// `MPI_INT`.
    pub(crate) fn datatype(
        &self,
        best: &mut Option<TypingFault>,
        datatype: &Argument,
    ) -> Result<Option<()>, AllocError>
        ensures { Walked (λ form. form) best.old best.new result (datatype_typing self.now.scope.now (argument_view datatype.now)) }
    {
        match name_given(datatype) {
            Some(name) => Ok(datatype_meant(best, name, self.scope.meaning(name))),
            None => self.misfit(best, datatype),
        }
    }

    /// One of the reduction operations.
    fn op(&self, best: &mut Option<TypingFault>, op: &Argument) -> Result<Option<Op>, AllocError>
        ensures { Walked (λ form. form) best.old best.new result (op_typing self.now.scope.now (argument_view op.now)) }
    {
        match name_given(op) {
            Some(name) => Ok(op_meant(best, name, self.scope.meaning(name))),
            None => self.misfit(best, op),
        }
    }

    /// A reference to statuses.
    fn some_status(
        &self,
        best: &mut Option<TypingFault>,
        given: &Argument,
    ) -> Result<Option<Option<Reference>>, AllocError>
        ensures { Walked (option_map pure_reference) best.old best.new result (onto Some (reference_typing self.now.scope.now Status (argument_view given.now))) }
    {
        made(
            reference_of(self.alloc, self.scope, best, VariableKind::Status, given),
            |statuses| Some(statuses),
        )
    }

    /// `MPI_STATUS_IGNORE`, or a status.
    pub(crate) fn status(
        &self,
        best: &mut Option<TypingFault>,
        status: &Argument,
    ) -> Result<Option<Option<Reference>>, AllocError>
        ensures { Walked (option_map pure_reference) best.old best.new result (status_typing self.now.scope.now (argument_view status.now)) }
    {
        match name_given(status) {
            Some(name) => match self.scope.meaning(name) {
                Meaning::Known(Predefined::IgnoredStatus) => Ok(Some(None)),
                _ => self.some_status(best, status),
            },
            None => self.some_status(best, status),
        }
    }

    /// `MPI_STATUSES_IGNORE`, or statuses.
    pub(crate) fn statuses(
        &self,
        best: &mut Option<TypingFault>,
        statuses: &Argument,
    ) -> Result<Option<Option<Reference>>, AllocError>
        ensures { Walked (option_map pure_reference) best.old best.new result (statuses_typing self.now.scope.now (argument_view statuses.now)) }
    {
        match name_given(statuses) {
            Some(name) => match self.scope.meaning(name) {
                Meaning::Known(Predefined::IgnoredStatuses) => Ok(Some(None)),
                _ => self.some_status(best, statuses),
            },
            None => self.some_status(best, statuses),
        }
    }

    // ---- the arguments of `MPI_Init`

    /// `NULL`.
    pub(crate) fn null(
        &self,
        best: &mut Option<TypingFault>,
        given: &Argument,
    ) -> Result<Option<()>, AllocError>
        ensures { Walked (λ form. form) best.old best.new result (null_typing self.now.scope.now (argument_view given.now)) }
    {
        match name_given(given) {
            Some(name) => Ok(null_meant(best, name, self.scope.meaning(name))),
            None => self.misfit(best, given),
        }
    }

    /// main's own int parameter after `&`.
    pub(crate) fn argc(
        &self,
        best: &mut Option<TypingFault>,
        argc: &Argument,
    ) -> Result<Option<()>, AllocError>
        ensures { Walked (λ form. form) best.old best.new result (argc_typing self.now.scope.now (argument_view argc.now)) }
    {
        match address_alone(argc) {
            Some((mark, name)) => Ok(argc_meant(best, mark, name, self.scope.meaning(name))),
            None => self.misfit(best, argc),
        }
    }

    /// main's own `char` parameter after `&`.
    pub(crate) fn argv(
        &self,
        best: &mut Option<TypingFault>,
        argv: &Argument,
    ) -> Result<Option<()>, AllocError>
        ensures { Walked (λ form. form) best.old best.new result (argv_typing self.now.scope.now (argument_view argv.now)) }
    {
        match address_alone(argv) {
            Some((mark, name)) => Ok(argv_meant(best, mark, name, self.scope.meaning(name))),
            None => self.misfit(best, argv),
        }
    }

    /// `NULL`, or a name without a meaning, which may be it.
    pub(crate) fn is_null(&self, given: &Argument) -> bool
        ensures { result ≡ is_null self.now.scope.now (argument_view given.now) }
    {
        match name_given(given) {
            Some(name) => is_null_meant(self.scope.meaning(name)),
            None => false,
        }
    }

    // ---- arguments that stand together

    /// The ints of a message.
    pub(crate) fn buffer(
        &self,
        best: &mut Option<TypingFault>,
        buf: &Argument,
        count: &Argument,
        datatype: &Argument,
    ) -> Result<Option<Buffer>, AllocError>
        ensures { Walked pure_buffer best.old best.new result (buffer_typing self.now.scope.now (argument_view buf.now) (argument_view count.now) (argument_view datatype.now)) }
    {
        made(
            three(
                buf_of(self.alloc, self.scope, best, buf),
                self.number(best, count),
                self.datatype(best, datatype),
            ),
            |((cells, count), ())| Buffer { cells, count },
        )
    }

    /// What a send takes.
    pub(crate) fn outgoing(
        &self,
        best: &mut Option<TypingFault>,
        buf: &Argument,
        count: &Argument,
        datatype: &Argument,
        dest: &Argument,
        tag: &Argument,
    ) -> Result<Option<Outgoing>, AllocError>
        ensures { Walked pure_outgoing best.old best.new result (outgoing_typing self.now.scope.now (argument_view buf.now) (argument_view count.now) (argument_view datatype.now) (argument_view dest.now) (argument_view tag.now)) }
    {
        made(
            three(
                self.buffer(best, buf, count, datatype),
                self.number(best, dest),
                self.number(best, tag),
            ),
            |((buffer, dest), tag)| Outgoing { buffer, dest, tag },
        )
    }

    /// What a receive takes.
    pub(crate) fn incoming(
        &self,
        best: &mut Option<TypingFault>,
        buf: &Argument,
        count: &Argument,
        datatype: &Argument,
        source: &Argument,
        tag: &Argument,
    ) -> Result<Option<Incoming>, AllocError>
        ensures { Walked pure_incoming best.old best.new result (incoming_typing self.now.scope.now (argument_view buf.now) (argument_view count.now) (argument_view datatype.now) (argument_view source.now) (argument_view tag.now)) }
    {
        made(
            three(
                self.buffer(best, buf, count, datatype),
                self.number(best, source),
                self.number(best, tag),
            ),
            |((buffer, source), tag)| Incoming {
                buffer,
                source,
                tag,
            },
        )
    }

    /// What the completion of some of several requests takes.
    pub(crate) fn several(
        &self,
        best: &mut Option<TypingFault>,
        incount: &Argument,
        requests: &Argument,
        outcount: &Argument,
        indices: &Argument,
        statuses: &Argument,
    ) -> Result<Option<SomeRequests>, AllocError>
        ensures { Walked pure_several best.old best.new result (several_typing self.now.scope.now (argument_view incount.now) (argument_view requests.now) (argument_view outcount.now) (argument_view indices.now) (argument_view statuses.now)) }
    {
        made(
            five(
                self.number(best, incount),
                self.requests(best, requests),
                self.ints(best, outcount),
                self.ints(best, indices),
                self.statuses(best, statuses),
            ),
            |((((count, requests), outcount), indices), statuses)| SomeRequests {
                count,
                requests,
                outcount,
                indices,
                statuses,
            },
        )
    }

    /// What a reduction takes.
    pub(crate) fn reduction(
        &self,
        best: &mut Option<TypingFault>,
        sendbuf: &Argument,
        recvbuf: &Argument,
        count: &Argument,
        datatype: &Argument,
        op: &Argument,
    ) -> Result<Option<Reduction>, AllocError>
        ensures { Walked pure_reduction best.old best.new result (reduction_typing self.now.scope.now (argument_view sendbuf.now) (argument_view recvbuf.now) (argument_view count.now) (argument_view datatype.now) (argument_view op.now)) }
    {
        made(
            five(
                buf_of(self.alloc, self.scope, best, sendbuf),
                buf_of(self.alloc, self.scope, best, recvbuf),
                self.number(best, count),
                self.datatype(best, datatype),
                self.op(best, op),
            ),
            |((((send, receive), count), ()), op)| Reduction {
                send,
                receive,
                count,
                op,
            },
        )
    }
}
