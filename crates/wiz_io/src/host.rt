//! The host's files and its standard output: the trusted edge. No contract says what a file or
//! the output holds.
ghost use Rattle.std.specs.Prelude.{◌≡◌, None};

use crate::fault::{PutFault, ReadFault, WriteFault};
use crate::sink::Sink;
use crate::store::Store;
use std::fs;
use std::io::{self, Read, Write};
use std::marker::Model;
use std::rt::Files;
use wiz_base::Bytes;

/// The host's files. A name is a path from the process's folder, or an absolute one. Contracts see
/// how many reads and writes failed.
#[derive(Drop)]
pub struct HostStore<'r, R: Files + AllocGlobal> {
    rt: &'r R,
    read_faults: u64,
    write_faults: u64,
}

impl<'r, R: Files + AllocGlobal> Model for HostStore<'r, R> {
    ghost use Rattle.wiz_io.specs.Host.{HostFaults};

    ghost Value = { HostFaults };

    ghost view = { λ s. record { reads = s.read_faults; writes = s.write_faults } };
}

impl<'r, R: Files + AllocGlobal> HostStore<'r, R> {
    pub fn new(rt: &'r R) -> Self
        ensures { result ≡ record { reads = 0; writes = 0 } }
    {
        HostStore {
            rt,
            read_faults: 0,
            write_faults: 0,
        }
    }
}

impl<'r, R: Files + AllocGlobal> Store for HostStore<'r, R> {
    ghost observed = { λ s. record { files = None; reads = s.reads; writes = s.writes } };

    fn read(&mut self, name: &str, limit: u64) -> Result<Bytes, ReadFault> {
        match read_up_to(self.rt, name, limit.saturating_add(1)) {
            Ok(bytes) => {
                if bytes.len() as u64 > limit {
                    Err(ReadFault::TooLong)
                } else {
                    Ok(Bytes::from_vec(bytes))
                }
            }
            Err(error) => match error.kind() {
                io::ErrorKind::NotFound => Err(ReadFault::Missing),
                io::ErrorKind::OutOfMemory => Err(ReadFault::NoMemory),
                _ => {
                    self.read_faults = self.read_faults.saturating_add(1);
                    Err(ReadFault::Failed)
                }
            },
        }
    }

    fn write(&mut self, name: &str, bytes: &[u8]) -> Result<(), WriteFault> {
        match fs::write(self.rt, name, bytes) {
            Ok(()) => Ok(()),
            Err(error) if error.kind() == io::ErrorKind::OutOfMemory => Err(WriteFault::NoMemory),
            Err(_) => {
                self.write_faults = self.write_faults.saturating_add(1);
                Err(WriteFault::Failed)
            }
        }
    }
}

/// The first bytes of a file, at most `most`: a longer one is not read to its end.
fn read_up_to<R: Files + AllocGlobal>(rt: &R, name: &str, most: u64) -> io::Result<Vec<u8>> {
    let mut bytes = Vec::new(rt.alloc());
    fs::open(rt, name)?.take(most).read_to_end(&mut bytes)?;
    Ok(bytes)
}

/// The host's standard output. Contracts see how many puts failed.
#[derive(Drop)]
pub struct HostSink<'r, R: Print> {
    rt: &'r R,
    faults: u64,
}

impl<'r, R: Print> Model for HostSink<'r, R> {
    ghost use Rattle.std.specs.Prelude.{ℕ};

    ghost Value = { ℕ };

    ghost view = { λ s. s.faults };
}

impl<'r, R: Print> HostSink<'r, R> {
    pub fn new(rt: &'r R) -> Self
        ensures { result ≡ 0 }
    {
        HostSink { rt, faults: 0 }
    }
}

impl<'r, R: Print> Sink for HostSink<'r, R> {
    ghost observed = { λ s. record { bytes = None; faults = s } };

    fn put(&mut self, bytes: &[u8]) -> Result<(), PutFault> {
        match io::writer(self.rt).write_all(bytes) {
            Ok(()) => Ok(()),
            Err(error) if error.kind() == io::ErrorKind::OutOfMemory => Err(PutFault::NoMemory),
            Err(_) => {
                self.faults = self.faults.saturating_add(1);
                Err(PutFault::Failed)
            }
        }
    }
}
