//! Faults, ordered by place and then by reason.
ghost use Rattle.std.specs.Prelude.{◌≡◌};
ghost use Rattle.c_scope.specs.Least.{fault, is_less, least_fault_from, reason_order, take_less, fault_unless};

use c_grammar::terminal::Span;
use c_lex::Why;

/// A fault and its place, which counts from 0.
#[derive(Clone, Copy)]
pub struct TypingFault {
    pub at: u32,
    pub why: Why,
}

/// The place of a reason in the list of reasons.
fn reason_order(why: Why) -> u8
    ensures { result ≡ reason_order why }
{
    match why {
        Why::BadByte => 1,
        Why::OpenComment => 2,
        Why::OpenText => 3,
        Why::BadLiteral => 4,
        Why::Unexpected => 5,
        Why::TooDeep => 6,
        Why::Unknown => 7,
        Why::Twice => 8,
        Why::WrongType => 9,
        Why::WrongCount => 10,
        Why::NoMain => 11,
        Why::BadFormat => 12,
        Why::LeftOut => 13,
        Why::NoMemory => 14,
    }
}

fn is_less(a: TypingFault, b: TypingFault) -> bool
    ensures { result ≡ is_less a b }
{
    a.at < b.at || (a.at == b.at && reason_order(a.why) < reason_order(b.why))
}

/// Keeps the first of what was found so far and this fault.
pub fn note(best: &mut Option<TypingFault>, found: TypingFault)
    ensures { best.new ≡ take_less best.old found }
{
    match *best {
        None => *best = Some(found),
        Some(other) => {
            if is_less(found, other) {
                *best = Some(found);
            }
        }
    }
}

/// A fault at a token.
pub fn note_at(best: &mut Option<TypingFault>, span: Span, why: Why)
    ensures { best.new ≡ least_fault_from best.old (fault span why) }
{
    note(
        best,
        TypingFault {
            at: span.start,
            why,
        },
    );
}

/// A fault at a token, unless all is well.
pub fn note_unless(best: &mut Option<TypingFault>, well: bool, span: Span, why: Why)
    ensures { best.new ≡ least_fault_from best.old (fault_unless well span why) }
{
    if !well {
        note_at(best, span, why);
    }
}
