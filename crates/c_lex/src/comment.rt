//! Comments.
ghost use Rattle.std.specs.Prelude.{◌≤◌, ◌<◌, Bool, MatchOption, length};
ghost use Rattle.c_lex.specs.Comments.{IsFirstClose, NeverCloses};
ghost use Rattle.c_lex.specs.Steps.{EndsWithin, OpeningGivesStep};
ghost use Rattle.c_lex.specs.declared.opening.Opening.TheVariants as opens;
ghost use Rattle.c_lex.specs.declared.limits.TheConstants.{MOST_BYTES};

use crate::bytes::{ByteClass, run_end};
use crate::fault::Why;
use crate::step::LexicalStep;

/// A comment up to the line's end.
pub fn line_comment(text: &[u8], at: usize) -> LexicalStep
    requires { at < length text.now }
    ensures stands { (on_define : Bool) → OpeningGivesStep text.now on_define at opens.LineComment result }
    ensures within { (on_define : Bool) → EndsWithin text.now on_define at result }
{
    LexicalStep::Skip {
        end: run_end(ByteClass::InLine, text, at + 1, text.len()),
    }
}

/// A comment between marks. On a line that is a define it has to end there.
pub fn block_comment(text: &[u8], on_define: bool, at: usize) -> LexicalStep
    requires inside { at < length text.now }
    requires fits { length text.now ≤ MOST_BYTES }
    ensures stands { OpeningGivesStep text.now on_define at opens.BlockComment result }
    ensures within { EndsWithin text.now on_define at result }
{
    let open = LexicalStep::Bad {
        place: at,
        why: Why::OpenComment,
    };
    let Some(close) = first_close(text, at + 2) else {
        return open;
    };
    if on_define && run_end(ByteClass::InLine, text, at, close) < close {
        return open;
    }
    LexicalStep::Skip { end: close + 2 }
}

/// The first closing mark from a place on.
fn first_close(text: &[u8], from: usize) -> Option<usize>
    requires { length text.now ≤ MOST_BYTES }
    ensures { MatchOption result (NeverCloses text.now from) (λ close. IsFirstClose text.now from close) }
{
    let mut close = from;
    while close < text.len() && close + 1 < text.len() {
        if text[close] == b'*' && text[close + 1] == b'/' {
            return Some(close);
        }
        close += 1;
    }
    None
}
