//! Typed programs.
ghost use Rattle.std.specs.Prelude.{◌≡◌, MatchOption, None, Some};

use crate::statement::TypedPart;
use run_model::program::Program;
use wiz_base::Bytes;

/// What a parameter takes.
#[derive(Clone, Copy)]
pub enum ParameterKind {
    Int,
    Communicator,
    /// A reference to ints.
    Array,
    /// The texts that main is started with; no cells.
    Texts,
}

#[derive(Drop)]
pub struct TypedParameter {
    pub name: Bytes,
    pub kind: ParameterKind,
}

/// A function: calls name it by its number. Its parameters are its first variables.
pub struct Function {
    pub parameters: Vec<TypedParameter>,
    pub body: Vec<TypedPart>,
}

// Written out, so that what a function holds is dropped by a function of this crate, and not by one of each crate that has functions.
impl Drop for Function {
    fn drop(self) {
        let Function {
            parameters: _parameters,
            body: _body,
        } = self;
    }
}

impl Function {
    /// A function of its parameters and its body, where both are there.
    pub fn of(
        parameters: Option<Vec<TypedParameter>>,
        body: Option<Vec<TypedPart>>,
    ) -> Option<Function>
        ensures { MatchOption parameters (result ≡ None) (λ parameters. MatchOption body (result ≡ None) (λ body. result ≡ Some (record { parameters = parameters; body = body }))) }
    {
        match parameters {
            None => None,
            Some(parameters) => match body {
                None => None,
                Some(body) => Some(Function { parameters, body }),
            },
        }
    }
}

/// A program without faults: its functions in the order of the text, and the number of main.
pub struct CProgram {
    pub functions: Vec<Function>,
    pub main: usize,
}

// Written out, so that what a program holds is dropped by a function of this crate, and not by one of each crate that has programs.
impl Drop for CProgram {
    fn drop(self) {
        let CProgram {
            functions: _functions,
            main: _,
        } = self;
    }
}

impl Program for CProgram {
    ghost use Rattle.c_program.specs.Program.{next_of, output_of, variables_of};
    ghost use Rattle.c_program.specs.View.{pure_program};
    ghost use Rattle.c_program.specs.laws.ProgramLaws.{ends_exactly, prints_on, asks_in_bounds, enters_in_form};

    ghost next = { λ program. next_of (pure_program program) };

    ghost output = { λ program. output_of (pure_program program) };

    ghost variables = { λ program. variables_of (pure_program program) };

    ghost ends_exactly = { λ program. ends_exactly (pure_program program) };

    ghost prints_on = { λ program. prints_on (pure_program program) };

    ghost asks_in_bounds = { λ program. asks_in_bounds (pure_program program) };

    ghost enters_in_form = { λ program. enters_in_form (pure_program program) };
}
