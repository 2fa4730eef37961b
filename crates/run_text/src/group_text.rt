//! The text of a group.
ghost use Rattle.std.specs.Prelude.{◌≡◌, ◌++◌, OnOk};
ghost use Rattle.run_text.specs.GroupTexts.{spaced_ranks_text};

use std::alloc::AllocError;
use wiz_base::{Bytes, push_decimal, push_text};

/// Ranks, a blank before each.
pub fn push_group(out: &mut Bytes, group: &[u8]) -> Result<(), AllocError>
    ensures { OnOk result (out.new ≡ out.old ++ spaced_ranks_text group.now) }
{
    let mut rest = group;
    while let [rank, after @ ..] = rest {
        push_text(out, b" ")?;
        push_decimal(out, *rank as u64)?;
        rest = after;
    }
    Ok(())
}
