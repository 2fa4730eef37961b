//! Files in memory, by name.
ghost use Rattle.std.specs.Prelude.{◌≡◌, OnOk, OnErr, None, IsErrOf, option_copied, ℕ, List};
ghost use Rattle.wiz_io.specs.Files.{IsFileRead, SetsFile};
ghost use Rattle.wiz_io.specs.FileTable.{files_in_table};

use crate::fault::ReadFault;
use std::alloc::{AllocError, Global};
use std::collections::BTreeMap;
use wiz_base::Bytes;

/// Files in memory, by name.
#[derive(Drop)]
pub struct FileTable {
    alloc: Global,
    files: BTreeMap<String, Bytes>,
}

impl FileTable {
    pub fn new(alloc: Global) -> Self
        ensures { (name : List ℕ) → files_in_table result name ≡ None }
    {
        FileTable {
            alloc,
            files: BTreeMap::new(alloc),
        }
    }

    /// Sets a file.
    pub fn set(&mut self, name: &str, bytes: &[u8]) -> Result<(), AllocError>
        ensures ok { OnOk result
            (SetsFile (files_in_table self.old) (files_in_table self.new) name.now bytes.now) }
        ensures err { OnErr result (files_in_table self.new ≡ files_in_table self.old) }
    {
        let key = String::from_str(self.alloc, name)?;
        let value = Bytes::from_slice(self.alloc, bytes)?;
        self.files.insert(key, value)?;
        Ok(())
    }

    /// The bytes of a file, where there is one.
    pub fn get(&self, name: &str) -> Option<&Bytes>
        ensures { option_copied result ≡ files_in_table self.now name.now }
    {
        self.files.get(name)
    }

    /// A copy of the bytes of a file of at most `limit` bytes.
    pub fn read(&self, name: &str, limit: u64) -> Result<Bytes, ReadFault>
        ensures read { IsFileRead (files_in_table self.now name.now) limit result }
        ensures no_fault { IsErrOf result ReadFault.Failed → ⊥ }
    {
        let Some(bytes) = self.get(name) else {
            return Err(ReadFault::Missing);
        };
        if bytes.len() as u64 > limit {
            return Err(ReadFault::TooLong);
        }
        Ok(Bytes::copy_of(bytes)?)
    }
}
