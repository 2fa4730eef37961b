//! Lines and columns.
ghost use Rattle.std.specs.Prelude.{◌≡◌, ◌≤◌, length};
ghost use Rattle.c_lex.specs.Places.{IsLineBegin, IsPlaceOf};
ghost use Rattle.c_lex.specs.declared.limits.TheConstants.{MOST_BYTES};

use crate::fault::{SourceFault, Why};

/// A refusal at a place of a text.
pub fn fault_at(text: &[u8], place: usize, why: Why) -> SourceFault
    requires within { place ≤ length text.now }
    requires fits { length text.now ≤ MOST_BYTES }
    ensures place { IsPlaceOf text.now place result.line result.column }
    ensures why { result.why ≡ why }
{
    let newlines = text[..place].iter().filter(|byte| **byte == b'\n').count();
    SourceFault {
        line: newlines as u32 + 1,
        column: (place - line_begin(text, place)) as u32 + 1,
        why,
    }
}

/// Where the line of a place begins.
fn line_begin(text: &[u8], place: usize) -> usize
    requires { place ≤ length text.now }
    ensures { IsLineBegin text.now place result }
{
    let mut begin = place;
    while begin > 0 && text[begin - 1] != b'\n' {
        begin -= 1;
    }
    begin
}
