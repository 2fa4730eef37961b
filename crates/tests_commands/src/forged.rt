//! Each byte of a log raised by one.
use crate::programs::FIRST_LOG;
use crate::tool::{ask, files, joined};
use std::alloc::Global;
use std::sync::Wait;
use std::thread::Threads;
use wiz_base::Bytes;

/// The log of ranks 0 and 1 of a run of three: a message from inside and one from outside, both probed, a probe in vain, results of
/// collectives and communicators from inside and from outside (`rows/forged.toml` records it).
const MIXED_LOG: &[u8] =
    b"srr 1\nranks 3\ngroup 0 1\nprogram 617\nint main(void){int r,x=0,y=0;MPI_Status s;MPI_Comm c,d;MPI_Comm_rank(MPI_COMM_WORLD,&r);if(r==0)MPI_Send(&r,1,MPI_INT,1,3,MPI_COMM_WORLD);if(r==2)MPI_Send(&r,1,MPI_INT,1,4,MPI_COMM_WORLD);if(r==1){MPI_Probe(0,3,MPI_COMM_WORLD,&s);MPI_Recv(&x,1,MPI_INT,0,3,MPI_COMM_WORLD,&s);MPI_Probe(2,MPI_ANY_TAG,MPI_COMM_WORLD,&s);MPI_Recv(&x,1,MPI_INT,2,4,MPI_COMM_WORLD,&s);MPI_Iprobe(0,9,MPI_COMM_WORLD,&y,&s);}x=r+1;MPI_Allreduce(&x,&y,1,MPI_INT,MPI_SUM,MPI_COMM_WORLD);MPI_Bcast(&x,1,MPI_INT,0,MPI_COMM_WORLD);MPI_Comm_split(MPI_COMM_WORLD,r<2,0,&c);if(r<2){MPI_Comm_dup(c,&d);MPI_Barrier(d);}printf(\"%d %d\\n\",y,x);return 0;}\nrank 0 12\ns\ne\nt 0=c:6\ne\nt 0=c\ne\nt 0=m.2:0,1\ne\nt 0=m.3\ne\nt 0=c\nz\nrank 1 18\nk 0.0\np\nt 0=0.0\nk 2.0.4:1\np\nt 0=2.0.4:2\nn\ne\nt 0=c:6\ne\nt 0=c\ne\nt 0=m.2:0,1\ne\nt 0=m.3\ne\nt 0=c\nz\nend\n";

/// A log with the byte at this place raised by one, modulo 256.
fn raised(alloc: Global, log: &[u8], at: usize) -> Option<Bytes> {
    let byte = *log.get(at)?;
    let behind = log.get(at.checked_add(1)?..)?;
    joined(alloc, &[log.get(..at)?, &[byte.wrapping_add(1)], behind])
}

/// Whether a log with this byte raised is replayed or refused, in the same way on one thread and on threads.
fn ends_alike<R: Threads + Wait + Sync + AllocGlobal>(
    rt: &R,
    log: &[u8],
    at: usize,
) -> Option<bool> {
    let forged = raised(rt.alloc(), log, at)?;
    let mut store = files(rt.alloc(), &[("L", forged.as_slice())])?;
    let serial = ask(rt, &mut store, "replay L --serial")?;
    let is_one = matches!(serial.status, 0 | 5 | 8 | 9 | 10);
    Some(is_one && ask(rt, &mut store, "replay L")?.is(&serial))
}

#[test]
fn each_byte_of_the_first_log_is_raised(rt: HostRuntime) {
    for at in 0..FIRST_LOG.len() {
        assert_eq!(rt; ends_alike(&rt, FIRST_LOG, at), Some(true), "{at}");
    }
}

#[test]
fn each_byte_of_the_mixed_log_is_raised(rt: HostRuntime) {
    for at in 0..MIXED_LOG.len() {
        assert_eq!(rt; ends_alike(&rt, MIXED_LOG, at), Some(true), "{at}");
    }
}
