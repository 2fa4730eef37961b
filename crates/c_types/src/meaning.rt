//! What a text fixes.
ghost use Rattle.std.specs.Prelude.{◌≡◌};
ghost use Rattle.c_program.specs.Tree as pure;
ghost use Rattle.c_program.specs.View.{pure_program};
ghost use Rattle.c_types.specs.Checks.{IsProgramOf};

use c_program::program::CProgram;

/// A text has one program.
pub fn text_fixes_meaning(program: &CProgram, text: &[u8])
    requires { IsProgramOf text.now (pure_program program.now) }
    ensures { (other : pure.Program) → IsProgramOf text.now other → pure_program program.now ≡ other }
{}
