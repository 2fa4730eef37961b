//! Typing a tree, and reading a program.
ghost use Rattle.std.specs.Prelude.{◌≡◌, ◌≤◌, ◌⊎◌, ℕ, List, IfErr, IfOk, MatchResult, length, min};
ghost use Rattle.c_grammar.specs.StmtView.{tree_view};
ghost use Rattle.c_lex.specs.NoMemory.{no_memory_fault};
ghost use Rattle.c_lex.specs.Places.{IsPlaceOf};
ghost use Rattle.c_lex.specs.declared.fault.SourceFault.{SourceFault};
ghost use Rattle.c_lex.specs.declared.limits.TheConstants.{MOST_BYTES};
ghost use Rattle.c_program.specs.Tree as pure;
ghost use Rattle.c_program.specs.View.{pure_program};
ghost use Rattle.c_scope.specs.Typing.{faults_of, typed};
ghost use Rattle.c_types.specs.Checks.{IsFaultOf, IsFirstIn, IsProgramOf};
ghost use Rattle.c_types.specs.ProgramTyping.{program_typing};

use crate::program::program_of;
use c_grammar::statement::Tree;
use c_lex::{SourceFault, fault_at, tokens};
use c_parse::parse;
use c_program::program::CProgram;
use c_scope::fault::TypingFault;
use std::alloc::Global;

/// A fault with its line and column.
fn refused(text: &[u8], fault: TypingFault) -> SourceFault
    requires { length text.now ≤ MOST_BYTES }
    ensures place { IsPlaceOf text.now (min (length text.now) fault.at) result.line result.column }
    ensures why { result.why ≡ fault.why }
{
    let place = text.len().min(fault.at as usize);
    fault_at(text, place, fault.why)
}

/// The typed program of a tree, or its first fault in source order; on one place the reason that is listed first.
pub fn check(alloc: Global, text: &[u8], tree: Tree) -> Result<CProgram, SourceFault>
    requires fits { length text.now ≤ MOST_BYTES }
    ensures program { IfOk result (λ program. program_typing text.now (tree_view tree) ≡ typed (pure_program program)) }
    ensures fault { IfErr result (λ found. (found ≡ no_memory_fault) ⊎ IsFirstIn text.now (faults_of (program_typing text.now (tree_view tree))) found) }
    ensures only { (program : pure.Program) → program_typing text.now (tree_view tree) ≡ typed program → IfErr result (λ fault. fault ≡ no_memory_fault) }
    ensures only_fault { (first : SourceFault) → IsFirstIn text.now (faults_of (program_typing text.now (tree_view tree))) first
        → MatchResult result (λ _. ⊥) (λ fault. (fault ≡ no_memory_fault) ⊎ (fault ≡ first)) }
{
    match program_of(alloc, text, &tree)? {
        Ok(program) => Ok(program),
        Err(fault) => Err(refused(text, fault)),
    }
}

/// The program of a text: its tokens, its tree and its types, in this order.
pub fn read_program(alloc: Global, text: &[u8]) -> Result<CProgram, SourceFault>
    requires { length text.now ≤ MOST_BYTES }
    ensures program { IfOk result (λ program. IsProgramOf text.now (pure_program program)) }
    ensures fault { IfErr result (λ fault. (fault ≡ no_memory_fault) ⊎ IsFaultOf text.now fault) }
    ensures only { (program : pure.Program) → IsProgramOf text.now program → IfErr result (λ fault. fault ≡ no_memory_fault) }
    ensures only_fault { (first : SourceFault) → IsFaultOf text.now first
        → MatchResult result (λ _. ⊥) (λ fault. (fault ≡ no_memory_fault) ⊎ (fault ≡ first)) }
{
    let tokens = tokens(alloc, text)?;
    let tree = parse(alloc, text, &tokens)?;
    let program = check(alloc, text, tree)?;
    Ok(program)
}

/// Each text has one program or one first fault, always one of them and never both.
pub fn one_program()
    ensures one_fault { (text : List ℕ) (fault other : SourceFault)
        → IsFaultOf text fault → IsFaultOf text other → fault ≡ other }
    ensures one_program { (text : List ℕ) (program other : pure.Program)
        → IsProgramOf text program → IsProgramOf text other → program ≡ other }
    ensures never_both { (text : List ℕ) (program : pure.Program) (fault : SourceFault)
        → IsProgramOf text program → IsFaultOf text fault → ⊥ }
    ensures always_one { (text : List ℕ)
        → ((program : pure.Program) × IsProgramOf text program) ⊎ ((fault : SourceFault) × IsFaultOf text fault) }
{}
