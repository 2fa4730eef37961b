//! Files and an output in memory that never fail: their counts of faults are the constant 0.
ghost use Rattle.std.specs.Prelude.{◌≡◌, ◌≢◌, ◌++◌, [], None, Some, ℕ, List, OnOk, OnErr, IsErrOf, option_copied};
ghost use Rattle.wiz_io.specs.Files.{IsFileRead, SetsFile};
ghost use Rattle.wiz_io.specs.Sure.{sure_files};

use crate::fault::{PutFault, ReadFault, WriteFault};
use crate::file_table::FileTable;
use crate::sink::Sink;
use crate::store::Store;
use std::alloc::{AllocError, Global};
use std::marker::Model;
use wiz_base::Bytes;

/// Files in memory whose reads and writes never fail. Contracts see the files (`sure_files`).
#[derive(Drop)]
pub struct SureStore {
    table: FileTable,
}

impl SureStore {
    pub fn new(alloc: Global) -> Self
        ensures { (name : List ℕ) → sure_files result name ≡ None }
    {
        SureStore {
            table: FileTable::new(alloc),
        }
    }

    /// Sets a file.
    pub fn add(&mut self, name: &str, bytes: &[u8]) -> Result<(), AllocError>
        ensures ok { OnOk result
            (SetsFile (sure_files self.old) (sure_files self.new) name.now bytes.now) }
        ensures err { OnErr result (sure_files self.new ≡ sure_files self.old) }
    {
        self.table.set(name, bytes)
    }

    /// The bytes of a file, where there is one.
    pub fn file(&self, name: &str) -> Option<&Bytes>
        ensures { option_copied result ≡ sure_files self.now name.now }
    {
        self.table.get(name)
    }
}

impl Store for SureStore {
    ghost observed = { λ s. record { files = Some (sure_files s); reads = 0; writes = 0 } };

    fn read(&mut self, name: &str, limit: u64) -> Result<Bytes, ReadFault>
        ensures read { IsFileRead (sure_files self.old name.now) limit result }
        ensures files { sure_files self.new ≡ sure_files self.old }
        ensures no_fault { IsErrOf result ReadFault.Failed → ⊥ }
    {
        self.table.read(name, limit)
    }

    /// A refused write leaves the file as it was.
    fn write(&mut self, name: &str, bytes: &[u8]) -> Result<(), WriteFault>
        ensures written { OnOk result (sure_files self.new name.now ≡ Some bytes.now) }
        ensures others { (other : List ℕ) → other ≢ name.now
            → sure_files self.new other ≡ sure_files self.old other }
        ensures err { OnErr result (sure_files self.new ≡ sure_files self.old) }
        ensures no_fault { IsErrOf result WriteFault.Failed → ⊥ }
    {
        self.table.set(name, bytes)?;
        Ok(())
    }
}

/// An output in memory that never fails. Contracts see the bytes put out.
#[derive(Drop)]
pub struct SureSink {
    out: Bytes,
}

impl Model for SureSink {
    ghost use Rattle.std.specs.Prelude.{List, ℕ};

    ghost Value = { List ℕ };

    ghost view = { λ s. s.out };
}

impl SureSink {
    pub fn new(alloc: Global) -> Self
        ensures { result ≡ [] }
    {
        SureSink {
            out: Bytes::new(alloc),
        }
    }

    /// What was put out so far.
    pub fn bytes(&self) -> &[u8]
        ensures { result.now ≡ self.now }
    {
        self.out.as_slice()
    }
}

impl Sink for SureSink {
    ghost observed = { λ s. record { bytes = Some s; faults = 0 } };

    /// A refused put writes nothing.
    fn put(&mut self, bytes: &[u8]) -> Result<(), PutFault>
        ensures ok { OnOk result (self.new ≡ self.old ++ bytes.now) }
        ensures err { OnErr result (self.new ≡ self.old) }
        ensures no_fault { IsErrOf result PutFault.Failed → ⊥ }
    {
        self.out.extend(bytes)?;
        Ok(())
    }
}
