//! Programs that several tests run, and a log.

/// Rank 0 sends a 7, which rank 1 receives and prints.
pub const FIRST: &[u8] =
    b"int main(void){int r,x=7;MPI_Comm_rank(MPI_COMM_WORLD,&r);if(r==0)MPI_Send(&x,1,MPI_INT,1,5,MPI_COMM_WORLD);if(r==1){x=0;MPI_Recv(&x,1,MPI_INT,0,5,MPI_COMM_WORLD,MPI_STATUS_IGNORE);printf(\"%d\\n\",x);}return 0;}";

/// The log of the first program, both ranks in one group.
pub const FIRST_LOG: &[u8] =
    b"srr 1\nranks 2\ngroup 0 1\nprogram 209\nint main(void){int r,x=7;MPI_Comm_rank(MPI_COMM_WORLD,&r);if(r==0)MPI_Send(&x,1,MPI_INT,1,5,MPI_COMM_WORLD);if(r==1){x=0;MPI_Recv(&x,1,MPI_INT,0,5,MPI_COMM_WORLD,MPI_STATUS_IGNORE);printf(\"%d\\n\",x);}return 0;}\nrank 0 2\ns\nz\nrank 1 3\np\nt 0=0.0\nz\nend\n";
