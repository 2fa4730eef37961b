//! An output that grows.
ghost use Rattle.std.specs.Prelude.{◌≤◌, IsErrOf};
ghost use Rattle.wiz_io.specs.Files.{HasRisen};
ghost use Rattle.wiz_io.specs.Output.{HasPut, ObservedOutput};

use crate::fault::PutFault;

/// A place where bytes are put out. An answer `NoMemory` may come at each call.
pub trait Sink {
    /// The bytes so far, where the sink shows them, and how many puts failed.
    ghost observed: { Self → ObservedOutput };

    /// Appends a piece. After a refusal a part of it at its front may be out.
    fn put(&mut self, bytes: &[u8]) -> Result<(), PutFault>
        ensures put { HasPut (observed self.old).bytes (observed self.new).bytes bytes.now result }
        ensures cause { IsErrOf result PutFault.Failed
            → HasRisen (observed self.old).faults (observed self.new).faults }
        ensures later { (observed self.old).faults ≤ (observed self.new).faults };
}
