//! Names, and the words of directives.
ghost use Rattle.std.specs.Prelude.{◌≡◌, ◌<◌, Bool, length};
ghost use Rattle.std.specs.List.{list_any};
ghost use Rattle.std.specs.Str.{bytes_eq};
ghost use Rattle.c_lex.specs.Words.{is_left_out};
ghost use Rattle.c_lex.specs.Steps.{EndsWithin, OpeningGivesStep};
ghost use Rattle.c_lex.specs.declared.opening.Opening.TheVariants as opens;

use crate::bytes::{ByteClass, run_end};
use crate::fault::Why;
use crate::step::LexicalStep;
use crate::token::TokenKind;

/// The words of C that are left out.
const LEFT_OUT: [&str; 23] = [
    "auto", "case", "const", "default", "double", "enum", "extern", "float", "goto", "inline",
    "long", "register", "restrict", "short", "signed", "sizeof", "static", "struct", "switch",
    "typedef", "union", "unsigned", "volatile",
];

/// A name, unless the word is left out.
pub fn word(text: &[u8], at: usize) -> LexicalStep
    requires { at < length text.now }
    ensures stands { (on_define : Bool) → OpeningGivesStep text.now on_define at opens.Word result }
    ensures within { (on_define : Bool) → EndsWithin text.now on_define at result }
{
    let end = run_end(ByteClass::InWord, text, at + 1, text.len());
    if is_left_out(&text[at..end]) {
        LexicalStep::Bad {
            place: at,
            why: Why::LeftOut,
        }
    } else {
        LexicalStep::Lexeme {
            kind: TokenKind::Name,
            end,
        }
    }
}

fn is_left_out(word: &[u8]) -> bool
    ensures { result ≡ is_left_out word.now }
{
    is_among(&LEFT_OUT, word)
}

fn is_among(words: &[&str], word: &[u8]) -> bool
    ensures { result ≡ list_any (λ other. bytes_eq word.now other.now) words.now }
{
    words.iter().any(|other| is_same(word, other.as_bytes()))
}

fn is_same(word: &[u8], other: &[u8]) -> bool
    ensures { result ≡ bytes_eq word.now other.now }
{
    word == other
}

/// A line with `#` before its first word.
pub fn directive(text: &[u8], at: usize) -> LexicalStep
    requires { at < length text.now }
    ensures stands { (on_define : Bool) → OpeningGivesStep text.now on_define at opens.Directive result }
    ensures within { (on_define : Bool) → EndsWithin text.now on_define at result }
{
    let from = run_end(ByteClass::Space, text, at + 1, text.len());
    let end = run_end(ByteClass::InWord, text, from, text.len());
    let name = &text[from..end];
    if is_same(name, b"include") {
        return LexicalStep::Skip {
            end: run_end(ByteClass::InLine, text, end, text.len()),
        };
    }
    if is_same(name, b"define") {
        return LexicalStep::Lexeme {
            kind: TokenKind::Define,
            end,
        };
    }
    LexicalStep::Bad {
        place: at,
        why: Why::LeftOut,
    }
}
