//! The values of expressions, places and references.
ghost use Rattle.std.specs.Prelude.{◌≡◌, ◌≤◌, IfOk, option_copied, option_map};
ghost use Rattle.mpi_call.specs.Operations.{is_set};
ghost use Rattle.c_program.specs.Meaning.{passed, test};
ghost use Rattle.c_program.specs.Values.{cell_of_place, value_with_links, field_place, is_decided, operated, range, value};
ghost use Rattle.c_program.specs.View.{pure_argument, pure_expr, pure_links, pure_place, pure_reference};
ghost use Rattle.c_run_cells.specs.Parts.{linked};

use crate::state::RankState;
use c_names::operator::{Operator, apply, apply_unary};
use c_program::constants::MOST_CELLS;
use c_program::expr::{Field, Reference, TypedArgument, TypedExpr, TypedLink, TypedPlace};
use c_program::range::Range;
use c_program::state::Passed;
use mpi_call::call::Fault;
use mpi_call::operations::truth;

impl<'p> RankState<'p> {
    /// The value of an expression, or its fault. Takes no memory.
    #[cycle(value)]
    #[tactic(auto, using(c_program::proofs::Viewed::views))]
    pub fn value(&self, expr: &TypedExpr) -> Result<i32, Fault>
        ensures { result ≡ value (pure_expr expr.now) self.now }
    {
        match expr {
            TypedExpr::Number(n) => Ok(*n),
            TypedExpr::Read(place) => {
                let cell = self.cell_of(place)?;
                Ok(self.cell(cell))
            }
            TypedExpr::Field { status, field } => {
                let cell = self.cell_of(status)?;
                Ok(self.cell(cell + field_place(*field)))
            }
            TypedExpr::Signed { sign, operand } => {
                let v = self.value(operand)?;
                Ok(apply_unary(*sign, v))
            }
            TypedExpr::Chain { first, links } => {
                let v = self.value(first)?;
                self.chained(links, v)
            }
            TypedExpr::Choice { test, then, other } => {
                let v = self.value(test)?;
                if is_set(v) {
                    self.value(then)
                } else {
                    self.value(other)
                }
            }
        }
    }

    /// What links make of the value before them.
    #[cycle(value)]
    fn chained(&self, links: &[TypedLink], first: i32) -> Result<i32, Fault>
        ensures { result ≡ value_with_links (pure_links links.now) first self.now }
    {
        let mut v = first;
        for link in links {
            v = self.linked(link.operator, &link.operand, v)?;
        }
        Ok(v)
    }

    #[cycle(value)]
    fn linked(&self, operator: Operator, operand: &TypedExpr, v: i32) -> Result<i32, Fault>
        ensures { result ≡ linked operator (pure_expr operand.now) v self.now }
    {
        if is_decided(operator, v) {
            return Ok(truth(is_set(v)));
        }
        let w = self.value(operand)?;
        operated(operator, v, w)
    }

    /// The cell of a place.
    #[cycle(value)]
    #[tactic(auto, using(c_program::proofs::Viewed::views))]
    pub fn cell_of(&self, place: &TypedPlace) -> Result<u32, Fault>
        ensures value { result ≡ cell_of_place (pure_place place.now) self.now }
        ensures bound { IfOk result (λ cell. cell ≤ MOST_CELLS) }
    {
        match place {
            TypedPlace::Whole(variable) => {
                let cells = self.cells_of(*variable)?;
                Ok(cells.from())
            }
            TypedPlace::Element { variable, index } => {
                let i = self.value(index)?;
                let cells = self.cells_of(*variable)?;
                cells.element(i)
            }
        }
    }

    /// Whether an expression is other than 0; `None` is always so.
    pub fn test(&self, condition: Option<&TypedExpr>) -> Result<bool, Fault>
        ensures { result ≡ test (option_map pure_expr (option_copied condition.entry)) self.now }
    {
        match condition {
            None => Ok(true),
            Some(e) => {
                let v = self.value(e)?;
                Ok(is_set(v))
            }
        }
    }

    /// The cells that a reference means.
    pub fn range(&self, reference: &Reference) -> Result<Range, Fault>
        ensures { result ≡ range (pure_reference reference.now) self.now }
    {
        match reference {
            Reference::Nothing => Ok(Range::nothing()),
            Reference::Whole(variable) => self.cells_of(*variable),
            Reference::From { variable, index } => {
                let i = self.value(index)?;
                let cells = self.cells_of(*variable)?;
                cells.elements_from(i)
            }
        }
    }

    pub fn passed(&self, argument: &TypedArgument) -> Result<Passed, Fault>
        ensures { result ≡ passed (pure_argument argument.now) self.now }
    {
        match argument {
            TypedArgument::Value(e) => {
                let v = self.value(e)?;
                Ok(Passed::Number(v))
            }
            TypedArgument::Reference(reference) => {
                let cells = self.range(reference)?;
                Ok(Passed::Cells(cells))
            }
        }
    }
}

fn is_set(v: i32) -> bool
    ensures { result ≡ is_set v }
{
    v != 0
}

fn field_place(field: Field) -> u32
    ensures value { result ≡ field_place field }
    ensures bound { result ≤ 1 }
{
    match field {
        Field::Source => 0,
        Field::Tag => 1,
    }
}

fn is_decided(operator: Operator, left: i32) -> bool
    ensures { result ≡ is_decided operator left }
{
    match operator {
        Operator::LogicalAnd => !is_set(left),
        Operator::LogicalOr => is_set(left),
        _ => false,
    }
}

/// The value of an operator between two values.
pub fn operated(operator: Operator, left: i32, right: i32) -> Result<i32, Fault>
    ensures { result ≡ operated operator left right }
{
    match apply(operator, left, right) {
        None => Err(Fault::DivideByZero),
        Some(value) => Ok(value),
    }
}
