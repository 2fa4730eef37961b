//! Ranges of cells.
ghost use Rattle.std.specs.Prelude.{◌≡◌};

use crate::constants::MOST_CELLS;
use mpi_call::call::Fault;
use std::marker::Model;

/// Elements in the stack of cells: which cell is the first one's, how many they are, and how many cells each has: 3 for
/// statuses, else 1. Contracts see a record of the three.
#[derive(Clone, Copy)]
pub struct Range {
    from: u32,
    length: u32,
    width: u32,
}

impl Model for Range {
    ghost use Rattle.std.specs.Prelude.{◌+◌, ◌*◌, ◌≤◌};
    ghost use Rattle.c_program.specs.Cells.{Cells};
    ghost use Rattle.c_program.specs.declared.constants.TheConstants.{MOST_CELLS};

    ghost Value = { Cells };

    ghost view = { λ r. record { from = r.from; length = r.length; width = r.width } };

    ghost inverse = { λ d. record { from = d.from; length = d.length; width = d.width } };

    ghost invariant = { λ r. r.from + r.length * r.width ≤ MOST_CELLS };
}

impl Range {
    ghost use Rattle.std.specs.Prelude.{◌≡◌, ◌+◌, ◌*◌, ◌≤◌, IfOk};
    ghost use Rattle.c_program.specs.State.{no_cells};
    ghost use Rattle.c_program.specs.Effects.{first_of_range as first_of};
    ghost use Rattle.c_program.specs.Values.{element as element_of, elements_from as elements_of};

    /// `NULL`: no cells.
    pub fn nothing() -> Range
        ensures { result ≡ no_cells }
    {
        Range {
            from: 0,
            length: 0,
            width: 1,
        }
    }

    /// The elements from a cell on. They are cells of a rank.
    pub fn new(from: u32, length: u32, width: u32) -> Range
        requires { from + length * width ≤ MOST_CELLS }
        ensures { result ≡ record { from = from; length = length; width = width } }
    {
        Range {
            from,
            length,
            width,
        }
    }

    /// The first element's cell.
    pub fn from(&self) -> u32
        ensures from { result ≡ self.now.from }
        ensures bound { result ≤ MOST_CELLS }
    {
        self.from
    }

    /// How many elements they are.
    pub fn length(&self) -> u32
        ensures { result ≡ self.now.length }
    {
        self.length
    }

    /// How many cells each element has.
    pub fn width(&self) -> u32
        ensures { result ≡ self.now.width }
    {
        self.width
    }

    /// How many cells they are.
    pub fn count(&self) -> u32
        ensures { result ≡ self.now.length * self.now.width }
    {
        self.length * self.width
    }

    /// The cell of element `i`; OutOfBounds where there is none.
    pub fn element(&self, i: i32) -> Result<u32, Fault>
        ensures element { result ≡ element_of self.now i }
        ensures bound { IfOk result (λ cell. cell ≤ MOST_CELLS) }
    {
        if i < 0 {
            return Err(Fault::OutOfBounds);
        }
        let place = i as u32;
        if place < self.length {
            Ok(self.from + place * self.width)
        } else {
            Err(Fault::OutOfBounds)
        }
    }

    /// The elements from element `i` on, or none where it is the length; OutOfBounds beyond.
    pub fn elements_from(&self, i: i32) -> Result<Range, Fault>
        ensures { result ≡ elements_of self.now i }
    {
        if i < 0 {
            return Err(Fault::OutOfBounds);
        }
        let place = i as u32;
        if place <= self.length {
            Ok(Range::new(
                self.from + place * self.width,
                self.length - place,
                self.width,
            ))
        } else {
            Err(Fault::OutOfBounds)
        }
    }

    /// The first `n` elements; OutOfBounds where there are fewer.
    pub fn first(&self, n: u32) -> Result<Range, Fault>
        ensures { result ≡ first_of n self.now }
    {
        if n <= self.length {
            Ok(Range::new(self.from, n, self.width))
        } else {
            Err(Fault::OutOfBounds)
        }
    }
}
