//! Faults in place of forms.
ghost use Rattle.std.specs.Prelude.{◌≡◌};
ghost use Rattle.c_scope.specs.Kinds.{kind_fits, kind_faults};
ghost use Rattle.c_scope.specs.Least.{least_fault_from};
ghost use Rattle.c_scope.specs.Typing.{refused, unfit};
ghost use Rattle.c_scope.specs.Walks.{Gives, if_so};

use crate::fault::{TypingFault, note_at};
use crate::joins::if_well;
use crate::kind::fits;
use crate::meaning::{ExprKind, Meaning};
use c_grammar::terminal::Span;
use c_lex::Why;

/// A fault, and no form.
pub fn refused<T: Drop>(best: &mut Option<TypingFault>, at: Span, why: Why) -> Option<T>
    ensures { Gives best.old best.new result (refused at why) }
{
    note_at(best, at, why);
    None
}

/// A name that is not what is wanted.
pub fn unfit<T: Drop>(
    best: &mut Option<TypingFault>,
    at: Span,
    name: Span,
    meant: Meaning,
) -> Option<T>
    ensures { Gives best.old best.new result (unfit at name meant) }
{
    match meant {
        Meaning::LeftOut => refused(best, name, Why::LeftOut),
        Meaning::Unknown => refused(best, name, Why::Unknown),
        _ => refused(best, at, Why::WrongType),
    }
}

/// What was found, where it is of a kind that is wanted.
pub fn of_kind<T: Drop>(
    best: &mut Option<TypingFault>,
    wanted: ExprKind,
    given: ExprKind,
    at: Span,
    found: Option<T>,
) -> Option<T>
    ensures best { best.new ≡ least_fault_from best.old (kind_faults wanted given at) }
    ensures form { result ≡ if_so (kind_fits wanted given) found }
{
    let well = fits(wanted, given);
    if !well {
        note_at(best, at, Why::WrongType);
    }
    if_well(well, found)
}
