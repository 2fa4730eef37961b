//! Each front of a log, and what a reader of one format says of the other.
use group_plan::one_reading as orders_have_one_reading;
use srr_log::fault::{LogFault, LogWhy};
use srr_log::read_log;
use srr_log2::read_either::either_has_one_reading;
use srr_log2::read_log2;
use std::alloc::Global;
use std::process::Abort;
use std::rt::HostRuntime;
use wiz_trace::check::check_tells_the_run;

/// The log of the first example of `docs/LOGS.md`.
const FIRST: &[u8] = b"srr 1\nranks 2\ngroup 0 1\nprogram 209\n\
int main(void){int r,x=7;MPI_Comm_rank(MPI_COMM_WORLD,&r);if(r==0)MPI_Send(&x,1,MPI_INT,1,5,MPI_COMM_WORLD);\
if(r==1){x=0;MPI_Recv(&x,1,MPI_INT,0,5,MPI_COMM_WORLD,MPI_STATUS_IGNORE);printf(\"%d\\n\",x);}return 0;}\n\
rank 0 2\ns\nz\nrank 1 3\np\nt 0=0.0\nz\nend\n";

/// The same in bytes. After the program there are 27 bytes of lists and 32 of the digest.
const FIRST_BYTES: &[u8] = b"srr 2\n\x02\0\0\0\0\0\0\0\x03\0\0\0\xd1\
int main(void){int r,x=7;MPI_Comm_rank(MPI_COMM_WORLD,&r);if(r==0)MPI_Send(&x,1,MPI_INT,1,5,MPI_COMM_WORLD);\
if(r==1){x=0;MPI_Recv(&x,1,MPI_INT,0,5,MPI_COMM_WORLD,MPI_STATUS_IGNORE);printf(\"%d\\n\",x);}return 0;}\
\0\0\0\x02\x01\x04\0\0\0\x03\x02\x05\0\0\0\x01\0\0\0\0\x03\0\0\0\0\0\x04\
\xf2\xd6\x07\xef\x28\x87\x3c\x3e\xe1\xd7\xe0\x6e\xa7\x6a\xbe\x2e\
\x44\x84\xba\xda\xb3\xa3\x09\x65\x57\x16\xb6\x83\xf5\x98\x27\x08";

/// The fault of the first bytes of a text, in format 1.
fn fault_in_lines(alloc: Global, text: &[u8], count: u16) -> Option<LogFault> {
    read_log::read_log(alloc, &text[..text.len().min(count as usize)]).err()
}

/// The same in format 2.
fn fault_in_bytes(alloc: Global, text: &[u8], count: u16) -> Option<LogFault> {
    read_log2::read_log2(alloc, &text[..text.len().min(count as usize)]).err()
}

fn short(at: u16) -> Option<LogFault> {
    Some(LogFault {
        at: at as u32,
        why: LogWhy::Short,
    })
}

#[test]
fn each_front_in_lines_is_short(rt: HostRuntime) {
    for at in 0..284u16 {
        assert_eq!(rt; fault_in_lines(rt.alloc(), FIRST, at), short(at));
    }
    assert_eq!(rt; fault_in_lines(rt.alloc(), FIRST, 284), None);
    assert_eq!(rt; FIRST.len(), 284);
}

#[test]
fn each_front_in_bytes_is_short(rt: HostRuntime) {
    for at in 0..287u16 {
        assert_eq!(rt; fault_in_bytes(rt.alloc(), FIRST_BYTES, at), short(at));
    }
    assert_eq!(rt; fault_in_bytes(rt.alloc(), FIRST_BYTES, 287), None);
    assert_eq!(rt; FIRST_BYTES.len(), 287);
}

#[test]
fn the_other_format_is_another_version(rt: HostRuntime) {
    let fault = LogFault {
        at: 0,
        why: LogWhy::BadVersion,
    };
    assert_eq!(rt; fault_in_lines(rt.alloc(), FIRST_BYTES, 287), Some(fault));
    assert_eq!(rt; fault_in_bytes(rt.alloc(), FIRST, 284), Some(fault));
}

#[test]
fn laws_return() {
    orders_have_one_reading();
    read_log::one_reading();
    read_log2::one_reading();
    either_has_one_reading();
    check_tells_the_run();
}
