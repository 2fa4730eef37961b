//! The tree of a text.
ghost use Rattle.std.specs.Prelude.{◌≡◌, ◌≤◌, ◌⊎◌, IfOk, IfErr, MatchResult, length};
ghost use Rattle.c_lex.specs.declared.limits.TheConstants.{MOST_BYTES};
ghost use Rattle.c_lex.specs.NoMemory.{no_memory_fault};
ghost use Rattle.c_lex.specs.Readings.{AreTokens};
ghost use Rattle.c_lex.specs.declared.fault.SourceFault.{SourceFault};
ghost use Rattle.c_grammar.specs.Tree as t;
ghost use Rattle.c_grammar.specs.StmtView.{tree_view};
ghost use Rattle.c_parse.specs.Parsing.{IsFirstSyntaxFault, IsTreeOfTokens, place_of_first};
ghost use Rattle.c_parse.specs.inside.Locating.{IsLocated, StandsWithin};

use crate::external::program;
use crate::read::ParseError;
use crate::terminals::terminals;
use c_grammar::statement::Tree;
use c_grammar::terminal::Terminal;
use c_lex::{SourceFault, TokenList, fault_at};
use std::alloc::{AllocError, Global};

/// The tree of a text with these tokens, or its first fault, `Unexpected` or `TooDeep`.
pub fn parse(alloc: Global, text: &[u8], tokens: &TokenList) -> Result<Tree, SourceFault>
    requires fits { length text.now ≤ MOST_BYTES }
    requires tokens { AreTokens text.now tokens.now }
    ensures tree { IfOk result (λ tree. IsTreeOfTokens text.now tokens.now (tree_view tree)) }
    ensures only { (tree : t.Tree) → IsTreeOfTokens text.now tokens.now tree
        → MatchResult result (λ found. tree_view found ≡ tree) (λ fault. fault ≡ no_memory_fault) }
    ensures fault { IfErr result (λ fault. (fault ≡ no_memory_fault) ⊎ IsFirstSyntaxFault text.now tokens.now fault) }
    ensures only_fault { (first : SourceFault) → IsFirstSyntaxFault text.now tokens.now first
        → MatchResult result (λ _. ⊥) (λ fault. (fault ≡ no_memory_fault) ⊎ (fault ≡ first)) }
{
    let terminals = terminals(alloc, text, tokens)?;
    match program(alloc, &terminals) {
        Ok(tree) => Ok(tree),
        Err(error) => Err(located(text, error)),
    }
}

/// A refusal with its line and column.
fn located(text: &[u8], error: ParseError) -> SourceFault
    requires fits { length text.now ≤ MOST_BYTES }
    requires within { StandsWithin text.now error }
    ensures { IsLocated text.now error.entry result }
{
    match error {
        ParseError::Memory => SourceFault::from(AllocError),
        ParseError::At(why, rest) => fault_at(text, place_of(text, rest), why),
    }
}

/// Where the first of these terminals is; after the last one, the end of the text.
fn place_of(text: &[u8], terminals: &[Terminal]) -> usize
    ensures { result ≡ place_of_first text.now terminals.now }
{
    match terminals {
        [first, ..] => first.span.start as usize,
        [] => text.len(),
    }
}
