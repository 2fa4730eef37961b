//! Names that stand without a declaration.
ghost use Rattle.std.specs.Prelude.{◌≡◌, map};
ghost use Rattle.c_names.specs.Predefined.{predefined_in, predefined};

use crate::function::MpiFunction;
use mpi_call::call::Op;

/// What a name means that a program need not declare.
#[derive(Clone, Copy)]
pub enum Predefined {
    Number(i32),
    /// By its number; -1 is the null communicator.
    Communicator(i32),
    NullRequest,
    /// `MPI_INT`.
    Datatype,
    Operation(Op),
    /// `MPI_STATUS_IGNORE`.
    IgnoredStatus,
    /// `MPI_STATUSES_IGNORE`.
    IgnoredStatuses,
    /// `NULL`.
    NoReference,
    /// `stdout`.
    Output,
    Mpi(MpiFunction),
    Printf,
    Fflush,
}

/// Each name and what it means: the rows of the definition, in its order.
const NAMES: [(&str, Predefined); 61] = [
    ("MPI_ANY_TAG", Predefined::Number(-1)),
    ("MPI_PROC_NULL", Predefined::Number(-1)),
    ("MPI_ANY_SOURCE", Predefined::Number(-2)),
    ("MPI_UNDEFINED", Predefined::Number(-32766)),
    ("INT_MAX", Predefined::Number(2147483647)),
    ("INT_MIN", Predefined::Number(-2147483648)),
    ("MPI_COMM_WORLD", Predefined::Communicator(0)),
    ("MPI_COMM_NULL", Predefined::Communicator(-1)),
    ("MPI_REQUEST_NULL", Predefined::NullRequest),
    ("MPI_INT", Predefined::Datatype),
    ("MPI_MAX", Predefined::Operation(Op::Max)),
    ("MPI_MIN", Predefined::Operation(Op::Min)),
    ("MPI_SUM", Predefined::Operation(Op::Sum)),
    ("MPI_PROD", Predefined::Operation(Op::Prod)),
    ("MPI_LAND", Predefined::Operation(Op::Land)),
    ("MPI_BAND", Predefined::Operation(Op::Band)),
    ("MPI_LOR", Predefined::Operation(Op::Lor)),
    ("MPI_BOR", Predefined::Operation(Op::Bor)),
    ("MPI_LXOR", Predefined::Operation(Op::Lxor)),
    ("MPI_BXOR", Predefined::Operation(Op::Bxor)),
    ("MPI_STATUS_IGNORE", Predefined::IgnoredStatus),
    ("MPI_STATUSES_IGNORE", Predefined::IgnoredStatuses),
    ("NULL", Predefined::NoReference),
    ("stdout", Predefined::Output),
    ("printf", Predefined::Printf),
    ("fflush", Predefined::Fflush),
    ("MPI_Init", Predefined::Mpi(MpiFunction::Init)),
    ("MPI_Finalize", Predefined::Mpi(MpiFunction::Finalize)),
    ("MPI_Comm_rank", Predefined::Mpi(MpiFunction::CommRank)),
    ("MPI_Comm_size", Predefined::Mpi(MpiFunction::CommSize)),
    ("MPI_Get_count", Predefined::Mpi(MpiFunction::GetCount)),
    ("MPI_Comm_free", Predefined::Mpi(MpiFunction::CommFree)),
    ("MPI_Send", Predefined::Mpi(MpiFunction::Send)),
    ("MPI_Ssend", Predefined::Mpi(MpiFunction::Ssend)),
    ("MPI_Recv", Predefined::Mpi(MpiFunction::Recv)),
    ("MPI_Sendrecv", Predefined::Mpi(MpiFunction::Sendrecv)),
    ("MPI_Isend", Predefined::Mpi(MpiFunction::Isend)),
    ("MPI_Issend", Predefined::Mpi(MpiFunction::Issend)),
    ("MPI_Irecv", Predefined::Mpi(MpiFunction::Irecv)),
    ("MPI_Wait", Predefined::Mpi(MpiFunction::Wait)),
    ("MPI_Waitall", Predefined::Mpi(MpiFunction::Waitall)),
    ("MPI_Waitany", Predefined::Mpi(MpiFunction::Waitany)),
    ("MPI_Waitsome", Predefined::Mpi(MpiFunction::Waitsome)),
    ("MPI_Test", Predefined::Mpi(MpiFunction::Test)),
    ("MPI_Testall", Predefined::Mpi(MpiFunction::Testall)),
    ("MPI_Testany", Predefined::Mpi(MpiFunction::Testany)),
    ("MPI_Testsome", Predefined::Mpi(MpiFunction::Testsome)),
    ("MPI_Probe", Predefined::Mpi(MpiFunction::Probe)),
    ("MPI_Iprobe", Predefined::Mpi(MpiFunction::Iprobe)),
    ("MPI_Barrier", Predefined::Mpi(MpiFunction::Barrier)),
    ("MPI_Bcast", Predefined::Mpi(MpiFunction::Bcast)),
    ("MPI_Reduce", Predefined::Mpi(MpiFunction::Reduce)),
    ("MPI_Allreduce", Predefined::Mpi(MpiFunction::Allreduce)),
    ("MPI_Scan", Predefined::Mpi(MpiFunction::Scan)),
    ("MPI_Gather", Predefined::Mpi(MpiFunction::Gather)),
    ("MPI_Scatter", Predefined::Mpi(MpiFunction::Scatter)),
    ("MPI_Allgather", Predefined::Mpi(MpiFunction::Allgather)),
    ("MPI_Alltoall", Predefined::Mpi(MpiFunction::Alltoall)),
    ("MPI_Comm_split", Predefined::Mpi(MpiFunction::CommSplit)),
    ("MPI_Comm_dup", Predefined::Mpi(MpiFunction::CommDup)),
    ("MPI_Abort", Predefined::Mpi(MpiFunction::Abort)),
];

/// What a name means without a declaration. Takes no memory.
pub fn meaning_of(name: &[u8]) -> Option<Predefined>
    ensures { result ≡ predefined name.now }
{
    find(&NAMES, name)
}

/// What the first row with this name has.
fn find(rows: &[(&'static str, Predefined)], name: &[u8]) -> Option<Predefined>
    ensures { result ≡ predefined_in (map (λ row. (row.0.now, row.1)) rows.now) name.now }
{
    let mut left = rows;
    while let [row, after @ ..] = left {
        if row.0.as_bytes() == name {
            return Some(row.1);
        }
        left = after;
    }
    None
}
