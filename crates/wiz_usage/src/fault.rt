//! The line of a program that was refused.
ghost use Rattle.std.specs.Prelude.{◌≤◌, IfOk, MatchOption, length};
ghost use Rattle.c_lex.specs.declared.fault.SourceFault.{SourceFault};
ghost use Rattle.c_lex.specs.declared.limits.TheConstants.{MOST_BYTES};
ghost use Rattle.c_types.specs.Checks.{IsFaultOf};
ghost use Rattle.wiz_usage.specs.Marks.{IsMarked};

use crate::mark::marked_line;
use c_lex::Why;
use c_lex::limits::MOST_BYTES;
use c_types::read_program;
use std::alloc::{AllocError, Global};
use wiz_base::Bytes;

/// The line of a program's first fault, with a caret under the column of the fault. Nothing where the text has more than `MOST_BYTES`
/// bytes, and where it is a program.
pub fn fault_line(alloc: Global, text: &[u8]) -> Result<Option<Bytes>, AllocError>
    ensures { IfOk result (λ found. MatchOption found (length text.now ≤ MOST_BYTES → (fault : SourceFault) → IsFaultOf text.now fault → ⊥)
        (λ shown. (fault : SourceFault) × IsFaultOf text.now fault × IsMarked text.now fault.line fault.column shown)) }
{
    if text.len() > MOST_BYTES {
        return Ok(None);
    }
    match read_program(alloc, text) {
        Ok(_) => Ok(None),
        Err(fault) => match fault.why {
            Why::NoMemory => Err(AllocError),
            _ => marked_line(alloc, text, fault.line, fault.column),
        },
    }
}
