//! Files that are read and written whole.
ghost use Rattle.std.specs.Prelude.{◌≡◌, ◌≤◌, OnOk, IfOk, IfSome, IsErrOf, length};
ghost use Rattle.wiz_io.specs.Files.{ObservedFiles, HasRisen, IsFileRead, ChangesOnly, HasFile};

use crate::fault::{ReadFault, WriteFault};
use wiz_base::Bytes;

/// Files by name. An answer `NoMemory` may come at each call.
pub trait Store {
    /// The files, where the store tells them, and how many reads and writes failed.
    ghost observed: { Self → ObservedFiles };

    /// The bytes of a file of at most `limit` bytes.
    fn read(&mut self, name: &str, limit: u64) -> Result<Bytes, ReadFault>
        ensures read { IfSome (observed self.old).files (λ files. IsFileRead (files name.now) limit result) }
        ensures short { IfOk result (λ bytes. length bytes ≤ limit) }
        ensures files { (observed self.new).files ≡ (observed self.old).files }
        ensures cause { IsErrOf result ReadFault.Failed
            → HasRisen (observed self.old).reads (observed self.new).reads }
        ensures later { (observed self.old).reads ≤ (observed self.new).reads }
        ensures writes { (observed self.new).writes ≡ (observed self.old).writes };

    /// Sets a file. After a refusal it holds any bytes, or is missing.
    fn write(&mut self, name: &str, bytes: &[u8]) -> Result<(), WriteFault>
        ensures written { OnOk result (HasFile (observed self.new).files name.now bytes.now) }
        ensures others { ChangesOnly (observed self.old).files (observed self.new).files name.now }
        ensures cause { IsErrOf result WriteFault.Failed
            → HasRisen (observed self.old).writes (observed self.new).writes }
        ensures later { (observed self.old).writes ≤ (observed self.new).writes }
        ensures reads { (observed self.new).reads ≡ (observed self.old).reads };
}
