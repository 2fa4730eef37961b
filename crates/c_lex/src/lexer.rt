//! The tokens of a text.
ghost use Rattle.std.specs.Prelude.{◌≡◌, ◌≢◌, ◌≤◌, ◌⊎◌, List, ℕ, IfOk, IfErr, MatchResult, length};
ghost use Rattle.c_lex.specs.NoMemory.{no_memory_fault};
ghost use Rattle.c_lex.specs.Readings.{AreSlices, AreTokens, IsFirstLexicalFault, stays_on_define, token_at};
ghost use Rattle.c_lex.specs.declared.token.Token.{Token};
ghost use Rattle.c_lex.specs.declared.fault.SourceFault.{SourceFault};
ghost use Rattle.c_lex.specs.declared.fault.Why.TheVariants.{NoMemory};
ghost use Rattle.c_lex.specs.declared.limits.TheConstants.{MOST_BYTES};

use crate::fault::SourceFault;
use crate::place::fault_at;
use crate::step::{LexicalStep, step_at};
use crate::token::{Token, TokenKind, TokenList};
use std::alloc::Global;

/// The tokens of a text, or its first fault, in time linear in the text.
pub fn tokens(alloc: Global, text: &[u8]) -> Result<TokenList, SourceFault>
    requires { length text.now ≤ MOST_BYTES }
    ensures list { IfOk result (λ list. AreTokens text.now list) }
    ensures slices { IfOk result (λ list. AreSlices text.now 0 list) }
    ensures fault { IfErr result (λ fault. (fault ≡ no_memory_fault) ⊎ IsFirstLexicalFault text.now fault) }
    ensures only_list { (list : List Token) → AreTokens text.now list
        → MatchResult result (λ found. found ≡ list) (λ fault. fault ≡ no_memory_fault) }
    ensures only_fault { (first : SourceFault) → IsFirstLexicalFault text.now first
        → MatchResult result (λ _. ⊥) (λ fault. (fault ≡ no_memory_fault) ⊎ (fault ≡ first)) }
{
    let mut found = TokenList::new(alloc);
    let mut at = 0;
    let mut on_define = false;
    while at < text.len() || on_define {
        match step_at(text, on_define, at) {
            LexicalStep::Skip { end } => {
                at = end;
            }
            LexicalStep::Lexeme { kind, end } => {
                found.push(token_at(kind, at, end))?;
                on_define = stays_on_define(kind, on_define);
                at = end;
            }
            LexicalStep::Bad { place, why } => return Err(fault_at(text, place, why)),
        }
    }
    Ok(found)
}

/// The token from one place to another.
fn token_at(kind: TokenKind, start: usize, end: usize) -> Token
    requires order { start ≤ end }
    requires fits { end ≤ MOST_BYTES }
    ensures { result ≡ token_at kind start end }
{
    Token {
        kind,
        start: start as u32,
        len: (end - start) as u32,
    }
}

/// Whether the line after a token is a define's.
fn stays_on_define(kind: TokenKind, on_define: bool) -> bool
    ensures { result ≡ stays_on_define kind on_define }
{
    match kind {
        TokenKind::Define => true,
        TokenKind::EndLine => false,
        _ => on_define,
    }
}

/// Each text has one list of tokens or one first fault, always one of them and never both. A fault of a
/// text is never that memory ran out.
pub fn one_reading()
    ensures one_list { (text : List ℕ) (list other : List Token)
        → AreTokens text list → AreTokens text other → list ≡ other }
    ensures one_fault { (text : List ℕ) (fault other : SourceFault)
        → IsFirstLexicalFault text fault → IsFirstLexicalFault text other → fault ≡ other }
    ensures has_place { (text : List ℕ) (fault : SourceFault) → IsFirstLexicalFault text fault → fault.why ≢ NoMemory }
    ensures never_both { (text : List ℕ) (list : List Token) (fault : SourceFault)
        → AreTokens text list → IsFirstLexicalFault text fault → ⊥ }
    ensures always_one { (text : List ℕ) → ((list : List Token) × AreTokens text list)
        ⊎ ((fault : SourceFault) × IsFirstLexicalFault text fault) }
{}
