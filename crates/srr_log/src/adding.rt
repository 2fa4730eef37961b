//! One more entry, and one more list, at the end of those that were read, in both formats.
ghost use Rattle.std.specs.Prelude.{◌≡◌, ◌++◌, ◌∷◌, [], OnOk};

use srr_entry::entry::Entry;
use srr_entry::log::{Entries, Lists};
use std::alloc::AllocError;

/// One more entry; what was refused is dropped.
pub fn add_entry(entries: &mut Entries, entry: Entry) -> Result<(), AllocError>
    ensures { OnOk result (entries.new ≡ entries.old ++ entry ∷ []) }
{
    entries.push(entry)?;
    Ok(())
}

/// One more list of a rank; what was refused is dropped.
pub fn add_list(lists: &mut Lists, entries: Entries) -> Result<(), AllocError>
    ensures { OnOk result (lists.new ≡ lists.old ++ entries ∷ []) }
{
    lists.push(entries)?;
    Ok(())
}
