//! What is at a place.
ghost use Rattle.std.specs.Prelude.{◌≡◌, ◌≤◌, ◌<◌, ◌⊎◌, true, length};
ghost use Rattle.c_lex.specs.Steps.{EndsWithin, IsLexicalStep, OpeningGivesStep};
ghost use Rattle.c_lex.specs.declared.opening.Opening.TheVariants as opens;
ghost use Rattle.c_lex.specs.declared.limits.TheConstants.{MOST_BYTES};

use crate::comment::{block_comment, line_comment};
use crate::fault::Why;
use crate::lexeme::{mark, number, quote};
use crate::opening::{Opening, opening_at};
use crate::token::TokenKind;
use crate::word::{directive, word};

/// What is at a place of a text, and where it ends.
#[derive(Clone, Copy)]
pub enum LexicalStep {
    /// No token.
    Skip { end: usize },
    Lexeme { kind: TokenKind, end: usize },
    Bad { place: usize, why: Why },
}

/// What is at this place, on a line that is a define or elsewhere.
pub fn step_at(text: &[u8], on_define: bool, at: usize) -> LexicalStep
    requires within { at ≤ length text.now }
    requires more { (at < length text.now) ⊎ (on_define ≡ true) }
    requires fits { length text.now ≤ MOST_BYTES }
    ensures stands { IsLexicalStep text.now on_define at result }
    ensures within { EndsWithin text.now on_define at result }
{
    match opening_at(text, at) {
        Opening::TextEnd => LexicalStep::Lexeme {
            kind: TokenKind::EndLine,
            end: at,
        },
        Opening::Newline => newline(text, on_define, at),
        Opening::Space => LexicalStep::Skip { end: at + 1 },
        Opening::LineComment => line_comment(text, at),
        Opening::BlockComment => block_comment(text, on_define, at),
        Opening::Directive => directive(text, at),
        Opening::Word => word(text, at),
        Opening::Digits => number(text, at),
        Opening::Quote => quote(text, at),
        Opening::Mark => mark(text, at),
        Opening::Nothing => LexicalStep::Bad {
            place: at,
            why: Why::BadByte,
        },
    }
}

/// The end of a line, which is a token where the line is a define.
fn newline(text: &[u8], on_define: bool, at: usize) -> LexicalStep
    requires inside { at < length text.now }
    ensures stands { OpeningGivesStep text.now on_define at opens.Newline result }
    ensures within { EndsWithin text.now on_define at result }
{
    if on_define {
        LexicalStep::Lexeme {
            kind: TokenKind::EndLine,
            end: at,
        }
    } else {
        LexicalStep::Skip { end: at + 1 }
    }
}
