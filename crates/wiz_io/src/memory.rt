//! Files and an output in memory, whose calls fail where that was asked for.
ghost use Rattle.std.specs.Prelude.{◌≡◌, ◌≢◌, ◌↔◌, ◌≤◌, [], None, Some, ℕ, List, OnOk, OnErr, IsErrOf, option_copied};
ghost use Rattle.wiz_io.specs.Calls.{IsNextFailing, no_calls, with_failing};
ghost use Rattle.wiz_io.specs.Files.{IsFileRead, SetsFile};
ghost use Rattle.wiz_io.specs.Memory.{memory_of, new_memory, after_read, after_write};
ghost use Rattle.wiz_io.specs.Output.{after_put};

use crate::calls::Failures;
use crate::fault::{PutFault, ReadFault, WriteFault};
use crate::file_table::FileTable;
use crate::sink::Sink;
use crate::store::Store;
use std::alloc::{AllocError, Global};
use std::marker::Model;
use wiz_base::Bytes;

/// Files in memory. Contracts see them, the calls that are to fail, and the faults (`memory_of`).
#[derive(Drop)]
pub struct MemoryStore {
    table: FileTable,
    failures: Failures,
    read_faults: u64,
    write_faults: u64,
}

impl MemoryStore {
    pub fn new(alloc: Global) -> Self
        ensures files { (name : List ℕ) → (memory_of result).files name ≡ None }
        ensures rest { memory_of result ≡ new_memory (memory_of result).files }
    {
        MemoryStore {
            table: FileTable::new(alloc),
            failures: Failures::new(alloc),
            read_faults: 0,
            write_faults: 0,
        }
    }

    /// Sets a file. It is not counted among the calls.
    pub fn add(&mut self, name: &str, bytes: &[u8]) -> Result<(), AllocError>
        ensures ok { OnOk result
            (SetsFile (memory_of self.old).files (memory_of self.new).files name.now bytes.now) }
        ensures err { OnErr result ((memory_of self.new).files ≡ (memory_of self.old).files) }
        ensures rest { memory_of self.new
            ≡ record (memory_of self.old) { files = (memory_of self.new).files } }
    {
        self.table.set(name, bytes)
    }

    /// Names a call, by its number from 0 over all reads and writes: it will answer `Failed`.
    pub fn fail(&mut self, call: u32) -> Result<(), AllocError>
        ensures ok { OnOk result
            ((memory_of self.new).calls ≡ with_failing (memory_of self.old).calls call) }
        ensures err { OnErr result ((memory_of self.new).calls ≡ (memory_of self.old).calls) }
        ensures rest { memory_of self.new
            ≡ record (memory_of self.old) { calls = (memory_of self.new).calls } }
    {
        self.failures.name(call)
    }

    /// The bytes of a file, where there is one.
    pub fn file(&self, name: &str) -> Option<&Bytes>
        ensures { option_copied result ≡ (memory_of self.now).files name.now }
    {
        self.table.get(name)
    }
}

impl Store for MemoryStore {
    ghost observed = { λ s. record { files = Some (memory_of s).files; reads = s.read_faults; writes = s.write_faults } };

    /// Fails if and only if the call was named.
    fn read(&mut self, name: &str, limit: u64) -> Result<Bytes, ReadFault>
        ensures fails { IsErrOf result ReadFault.Failed ↔ IsNextFailing (memory_of self.old).calls }
        ensures read { IsFileRead ((memory_of self.old).files name.now) limit result }
        ensures after { memory_of self.new ≡ after_read (memory_of self.old) result }
        ensures later { (memory_of self.old).read_faults ≤ (memory_of self.new).read_faults }
    {
        if self.failures.is_next_failing() {
            self.read_faults = self.read_faults.saturating_add(1);
            return Err(ReadFault::Failed);
        }
        self.table.read(name, limit)
    }

    /// Fails if and only if the call was named. A refused write leaves the file as it was.
    fn write(&mut self, name: &str, bytes: &[u8]) -> Result<(), WriteFault>
        ensures fails { IsErrOf result WriteFault.Failed
            ↔ IsNextFailing (memory_of self.old).calls }
        ensures written { OnOk result ((memory_of self.new).files name.now ≡ Some bytes.now) }
        ensures others { (other : List ℕ) → other ≢ name.now
            → (memory_of self.new).files other ≡ (memory_of self.old).files other }
        ensures err { OnErr result ((memory_of self.new).files ≡ (memory_of self.old).files) }
        ensures rest { memory_of self.new
            ≡ after_write (memory_of self.old) (memory_of self.new).files result }
        ensures later { (memory_of self.old).write_faults ≤ (memory_of self.new).write_faults }
    {
        if self.failures.is_next_failing() {
            self.write_faults = self.write_faults.saturating_add(1);
            return Err(WriteFault::Failed);
        }
        self.table.set(name, bytes)?;
        Ok(())
    }
}

/// An output in memory.
#[derive(Drop)]
pub struct MemorySink {
    out: Bytes,
    failures: Failures,
    faults: u64,
}

impl Model for MemorySink {
    ghost use Rattle.wiz_io.specs.Output.{MemoryOutput};

    ghost Value = { MemoryOutput };

    ghost view = { λ s. record { bytes = s.out; calls = s.failures; faults = s.faults } };
}

impl MemorySink {
    pub fn new(alloc: Global) -> Self
        ensures { result ≡ record { bytes = []; calls = no_calls; faults = 0 } }
    {
        MemorySink {
            out: Bytes::new(alloc),
            failures: Failures::new(alloc),
            faults: 0,
        }
    }

    /// Names a put, by its number from 0: it will answer `Failed`.
    pub fn fail(&mut self, call: u32) -> Result<(), AllocError>
        ensures ok { OnOk result
            (self.new ≡ record self.old { calls = with_failing self.old.calls call }) }
        ensures err { OnErr result (self.new ≡ self.old) }
    {
        self.failures.name(call)
    }

    /// What was put out so far.
    pub fn bytes(&self) -> &[u8]
        ensures { result.now ≡ self.now.bytes }
    {
        self.out.as_slice()
    }
}

impl Sink for MemorySink {
    ghost observed = { λ s. record { bytes = Some s.bytes; faults = s.faults } };

    /// Fails if and only if the put was named. A refused put writes nothing.
    fn put(&mut self, bytes: &[u8]) -> Result<(), PutFault>
        ensures fails { IsErrOf result PutFault.Failed ↔ IsNextFailing self.old.calls }
        ensures put { self.new ≡ after_put self.old bytes.now result }
        ensures later { self.old.faults ≤ self.new.faults }
    {
        if self.failures.is_next_failing() {
            self.faults = self.faults.saturating_add(1);
            return Err(PutFault::Failed);
        }
        self.out.extend(bytes)?;
        Ok(())
    }
}
