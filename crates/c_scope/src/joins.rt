//! What walks found, joined: typed forms where all are there, and the first fault.
ghost use Rattle.std.specs.Prelude.{◌≡◌, Ok, OnOk, IfOk, option_map};
ghost use Rattle.c_scope.specs.Walks.{found_both, if_so, kept_form, merged, unless_fault, unless_faulty};

use crate::fault::{TypingFault, note};
use std::alloc::{AllocError, Global};

/// What two walks found, where both found something.
pub fn both<A: Drop, B: Drop>(
    first: Result<Option<A>, AllocError>,
    second: Result<Option<B>, AllocError>,
) -> Result<Option<(A, B)>, AllocError>
    ensures { result ≡ found_both first second }
{
    let first = first?;
    let second = second?;
    match first {
        None => Ok(None),
        Some(first) => match second {
            None => Ok(None),
            Some(second) => Ok(Some((first, second))),
        },
    }
}

/// What a walk found, in a box.
pub fn in_box<T: Drop>(
    alloc: Global,
    found: Result<Option<T>, AllocError>,
) -> Result<Option<Box<T>>, AllocError>
    ensures { IfOk result (λ held. found ≡ Ok (option_map (λ box. box.value) held)) }
{
    match found? {
        None => Ok(None),
        Some(form) => Ok(Some(Box::new(alloc, form)?)),
    }
}

/// What was found, where all is well.
pub fn if_well<T: Drop>(well: bool, found: Option<T>) -> Option<T>
    ensures { result ≡ if_so well found }
{
    if well { found } else { None }
}

/// What was found, unless there is a fault of its own, which is then told.
pub fn unless_told<T: Drop>(
    best: &mut Option<TypingFault>,
    own: Option<TypingFault>,
    found: Option<T>,
) -> Option<T>
    ensures best { best.new ≡ merged best.old own }
    ensures form { result ≡ unless_fault own found }
{
    match own {
        None => found,
        Some(fault) => {
            note(best, fault);
            None
        }
    }
}

/// One form more, as long as each one is there.
pub fn keep<T: Drop>(
    forms: &mut Vec<T>,
    faulty: &mut bool,
    one: Option<T>,
) -> Result<(), AllocError>
    ensures { OnOk result (unless_faulty faulty.new forms.new.items ≡ kept_form (unless_faulty faulty.old forms.old.items) one) }
{
    match one {
        Some(form) => forms.push(form)?,
        None => *faulty = true,
    }
    Ok(())
}

/// All forms, where each one is there.
pub fn all<T: Drop>(forms: Vec<T>, faulty: bool) -> Option<Vec<T>>
    ensures { option_map (λ all. all.items) result ≡ unless_faulty faulty forms.items }
{
    if faulty { None } else { Some(forms) }
}
