//! Numbers, texts and marks.
ghost use Rattle.std.specs.Prelude.{◌≡◌, ◌≤◌, ◌<◌, ◌+◌, Bool, length};
ghost use Rattle.c_lex.specs.Marks.{mark_length};
ghost use Rattle.c_lex.specs.Texts.{Inside, character_length};
ghost use Rattle.c_lex.specs.Steps.{EndsWithin, OpeningGivesStep};
ghost use Rattle.c_lex.specs.declared.opening.Opening.TheVariants as opens;
ghost use Rattle.c_lex.specs.declared.limits.TheConstants.{MOST_BYTES};

use crate::bytes::{ByteClass, run_end};
use crate::fault::Why;
use crate::literal::literal_value;
use crate::mark::mark_length;
use crate::opening::byte_at;
use crate::step::LexicalStep;
use crate::token::TokenKind;

/// A number.
pub fn number(text: &[u8], at: usize) -> LexicalStep
    requires { at < length text.now }
    ensures stands { (on_define : Bool) → OpeningGivesStep text.now on_define at opens.Digits result }
    ensures within { (on_define : Bool) → EndsWithin text.now on_define at result }
{
    let end = run_end(ByteClass::InWord, text, at + 1, text.len());
    match literal_value(&text[at..end]) {
        Some(_) => LexicalStep::Lexeme {
            kind: TokenKind::Number,
            end,
        },
        None => LexicalStep::Bad {
            place: at,
            why: Why::BadLiteral,
        },
    }
}

/// A mark.
pub fn mark(text: &[u8], at: usize) -> LexicalStep
    requires inside { at < length text.now }
    requires mark { 0 < mark_length text.now at }
    ensures stands { (on_define : Bool) → OpeningGivesStep text.now on_define at opens.Mark result }
    ensures within { (on_define : Bool) → EndsWithin text.now on_define at result }
{
    LexicalStep::Lexeme {
        kind: TokenKind::Mark,
        end: at + mark_length(text, at),
    }
}

/// A text between marks.
pub fn quote(text: &[u8], at: usize) -> LexicalStep
    requires inside { at < length text.now }
    requires fits { length text.now ≤ MOST_BYTES }
    ensures stands { (on_define : Bool) → OpeningGivesStep text.now on_define at opens.Quote result }
    ensures within { (on_define : Bool) → EndsWithin text.now on_define at result }
{
    let close = inside_end(text, at + 1);
    if byte_at(text, close) != b'"' {
        return LexicalStep::Bad {
            place: at,
            why: Why::OpenText,
        };
    }
    let place = run_end(ByteClass::Printable, text, at + 1, close);
    if place < close {
        LexicalStep::Bad {
            place,
            why: Why::BadByte,
        }
    } else {
        LexicalStep::Lexeme {
            kind: TokenKind::Text,
            end: close + 1,
        }
    }
}

/// Where the inside of a text ends: at its closing mark, or where the line ends before it.
fn inside_end(text: &[u8], from: usize) -> usize
    requires within { from ≤ length text.now }
    requires fits { length text.now ≤ MOST_BYTES }
    ensures inside { Inside text.now from result }
    ensures low { from ≤ result }
    ensures high { result ≤ length text.now }
{
    let mut at = from;
    let mut more = character_length(text, at);
    while more > 0 {
        at += more;
        more = character_length(text, at);
    }
    at
}

/// How many bytes the next character of a text has; 0 where the inside ends.
fn character_length(text: &[u8], at: usize) -> usize
    requires { at ≤ length text.now }
    ensures value { result ≡ character_length text.now at }
    ensures within { at + result ≤ length text.now }
{
    if at >= text.len() || text[at] == b'"' || text[at] == b'\n' {
        return 0;
    }
    if text[at] != b'\\' {
        return 1;
    }
    if at + 1 >= text.len() || text[at + 1] == b'\n' {
        return 0;
    }
    2
}
