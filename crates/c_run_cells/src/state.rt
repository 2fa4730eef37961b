//! What a rank holds while its program runs.
ghost use Rattle.std.specs.Prelude.{◌≡◌, ◌≤◌, ◌<◌, ◌^◌, ◌+◌, ◌++◌, ◌∷◌, [], IfOk, IfSome, None, OnErr, OnOk, length, map, option_map, true};
ghost use Rattle.run_model.specs.Lists.{world};
ghost use Rattle.c_program.specs.Courses.{listed_of, variable_of};
ghost use Rattle.rank_watch.specs.Innermost.{innermost_values};
ghost use Rattle.c_program.specs.Meaning.{cells_in, has_room, passed_number, with_open_call, parameter_cells, repeated, start, with_parameter, with_slot};
ghost use Rattle.c_program.specs.Performing.{begun, with_communicators, made_by, made_by_all, begun_at};
ghost use Rattle.c_program.specs.Values.{cells_of};
ghost use Rattle.c_program.specs.State.{cell_at, first_cells, ints_in_cells, leave, stack_mark, members_among, members_known, put, put_all, values_from, width_of};
ghost use Rattle.c_run_cells.specs.inside.Named.{cells_named};
ghost use Rattle.c_run_cells.specs.Sizes.{HaveIntSizes};
ghost use Rattle.c_run_cells.specs.SlotView.{slot_view};
ghost use Rattle.c_run_cells.specs.inside.Slots.{with_cells};
ghost use Rattle.c_run_cells.specs.Steps.{HasStepped};

use c_names::kind::VariableKind;
use c_program::constants::{ANY_SOURCE, INT_LIMIT, MOST_CELLS, MOST_STEPS, NULL};
use c_program::effect::Rank;
use c_program::program::{ParameterKind, TypedParameter};
use c_program::range::Range;
use c_program::state::{Begun, MadeCommunicator, Passed, StackMark};
use mpi_call::call::Fault;
use mpi_call::limits::MOST_RANKS;
use mpi_call::lists::{Ints, Ranks};
use mpi_call::reply::{Got, Item};
use run_model::lists::{Variable, Variables, all_ranks};
use std::alloc::{AllocError, Global};
use std::marker::Model;
use wiz_base::Bytes;

/// A variable that stands.
#[derive(Clone, Copy)]
pub struct Slot<'p> {
    depth: u32,
    name: &'p Bytes,
    is_listed: bool,
    cells: Range,
}

/// Cells, variables, what was printed, the starts and communicators of a rank. Contracts see a `State`.
#[derive(Drop)]
pub struct RankState<'p> {
    alloc: Global,
    cells: Vec<i32>,
    slots: Vec<Slot<'p>>,
    base: usize,
    opens: u32,
    printed: Vec<u8>,
    left: u32,
    starts: Vec<Begun>,
    made: Vec<MadeCommunicator>,
    /// The ranks of the largest run.
    world: Ranks,
}

impl<'p> Model for RankState<'p> {
    ghost use Rattle.std.specs.Prelude.{◌≡◌, ◌≤◌, ◌<◌, ◌^◌, length, map};
    ghost use Rattle.c_program.specs.State.{State};
    ghost use Rattle.c_program.specs.declared.constants.TheConstants.{MOST_CELLS};
    ghost use Rattle.mpi_call.specs.declared.limits.TheConstants.{MOST_RANKS};
    ghost use Rattle.run_model.specs.Lists as lists;
    ghost use Rattle.c_run_cells.specs.Sizes.{HaveIntSizes};
    ghost use Rattle.c_run_cells.specs.SlotView.{slot_view};

    ghost Value = { State };

    ghost view = { λ s. record { cells = s.cells.items; slots = map slot_view s.slots.items; base = s.base; opens = s.opens; printed = s.printed.items; left = s.left; starts = s.starts.items; made = s.made.items } };

    ghost invariant = { λ s. (s.world ≡ lists.world MOST_RANKS 0) × (length s.cells.items ≤ MOST_CELLS) × (length s.starts.items < 2 ^ 31) × HaveIntSizes s.made.items };
}

impl<'p> RankState<'p> {
    /// Nothing stands yet.
    pub fn new(alloc: Global) -> Result<Self, AllocError>
        ensures { IfOk result (λ state. state ≡ start) }
    {
        Ok(RankState {
            alloc,
            cells: Vec::new(alloc),
            slots: Vec::new(alloc),
            base: 0,
            opens: 0,
            printed: Vec::new(alloc),
            left: MOST_STEPS,
            starts: Vec::new(alloc),
            made: Vec::new(alloc),
            world: all_ranks(alloc, MOST_RANKS)?,
        })
    }

    /// The value of a cell; 0 where there is none.
    pub fn cell(&self, cell: u32) -> i32
        ensures { result ≡ cell_at self.now cell }
    {
        self.at(cell as usize)
    }

    /// Where there is no such cell, nothing changes.
    pub fn put(&mut self, cell: u32, value: i32)
        ensures { self.new ≡ put cell value self.old }
    {
        self.set(cell as usize, value)
    }

    /// Puts ints from a cell on.
    pub fn put_all(&mut self, cell: u32, values: &[i32])
        ensures { self.new ≡ put_all cell values.now self.old }
    {
        let mut at = cell as usize;
        let mut rest = values;
        while let [value, after @ ..] = rest {
            self.set(at, *value);
            at += 1;
            rest = after;
        }
    }

    pub fn ints_in(&self, alloc: Global, cells: Range) -> Result<Ints, AllocError>
        ensures { IfOk result (λ ints. ints ≡ ints_in_cells cells self.now) }
    {
        self.values_from(alloc, cells.from(), cells.length())
    }

    /// How many cells stand.
    pub fn height(&self) -> usize
        ensures height { result ≡ length self.now.cells }
        ensures bound { result ≤ MOST_CELLS }
    {
        self.cells.len()
    }

    /// The cells of a variable of the function that runs.
    pub fn cells_of(&self, variable: usize) -> Result<Range, Fault>
        ensures { result ≡ cells_of variable self.now }
    {
        if variable >= self.slots.len() || self.base >= self.slots.len() - variable {
            return Err(Fault::OutOfBounds);
        }
        Ok(self.slots[self.base + variable].cells)
    }

    /// Takes a step; answers whether there was one left.
    pub fn step(&mut self) -> bool
        ensures { HasStepped self.old.left self.old self.new result }
    {
        if self.left == 0 {
            return false;
        }
        self.left -= 1;
        true
    }

    /// How many steps may still be taken.
    pub fn left(&self) -> u32
        ensures { result ≡ self.now.left }
    {
        self.left
    }

    pub fn mark(&self) -> StackMark
        ensures { result ≡ stack_mark self.now }
    {
        StackMark {
            cells: self.cells.len(),
            slots: self.slots.len(),
            base: self.base,
            opens: self.opens,
        }
    }

    /// Takes away what was declared since then.
    #[tactic(auto, using(crate::proofs::StateLaws::slots))]
    pub fn leave(&mut self, mark: StackMark)
        ensures { self.new ≡ leave mark self.old }
    {
        self.cells.truncate(mark.cells);
        self.slots.truncate(mark.slots);
        self.base = mark.base;
        self.opens = mark.opens;
    }

    /// Whether so many cells more may stand.
    pub fn has_room(&self, more: usize) -> bool
        ensures { result ≡ has_room more self.now }
    {
        more <= MOST_CELLS as usize - self.cells.len()
    }

    /// A variable more, of some elements, with cells of its own.
    #[tactic(auto, using(crate::proofs::StateLaws::cells_counted))]
    pub fn declare(
        &mut self,
        name: &'p Bytes,
        kind: VariableKind,
        elements: u32,
    ) -> Result<(), AllocError>
        requires { has_room (length (repeated elements (first_cells kind))) self.old ≡ true }
        ensures { OnOk result (self.new ≡ with_slot name.now elements (width_of kind) (repeated elements (first_cells kind)) self.old) }
    {
        let from = self.cells.len() as u32;
        push_firsts(&mut self.cells, kind, elements)?;
        self.add_slot(name, true, Range::new(from, elements, width_of(kind)))
    }

    /// A parameter more.
    pub fn add_parameter(
        &mut self,
        parameter: &'p TypedParameter,
        passed: Option<Passed>,
    ) -> Result<(), AllocError>
        requires { has_room (parameter_cells (parameter.now ∷ [])) self.old ≡ true }
        ensures { OnOk result (self.new ≡ with_parameter parameter.now passed self.old) }
    {
        match parameter.kind {
            ParameterKind::Int | ParameterKind::Communicator => {
                self.add_number(&parameter.name, number_in(passed))
            }
            ParameterKind::Array => {
                self.cells.push(0)?;
                self.add_slot(&parameter.name, false, cells_in(passed))
            }
            ParameterKind::Texts => self.add_slot(&parameter.name, false, Range::nothing()),
        }
    }

    /// One call more is open. Out of memory also where there would be 2^32.
    pub fn open(&mut self) -> Result<(), AllocError>
        ensures { OnOk result (self.new ≡ with_open_call self.old) }
    {
        if self.opens == u32::MAX {
            return Err(AllocError);
        }
        self.base = self.slots.len();
        self.opens += 1;
        Ok(())
    }

    /// Prints bytes.
    pub fn print(&mut self, text: &[u8]) -> Result<(), AllocError>
        ensures { OnOk result (self.new ≡ record self.old { printed = self.old.printed ++ text.now }) }
    {
        self.printed.extend_from_slice(text)
    }

    pub fn printed(&self) -> &[u8]
        ensures { result.now ≡ self.now.printed }
    {
        &self.printed
    }

    /// The variables that stand and are listed.
    pub fn variables(&self, alloc: Global) -> Result<Variables, AllocError>
        ensures { IfOk result (λ found. found ≡ listed_of self.now self.now.slots) }
    {
        self.listed_of(alloc, &self.slots)
    }

    /// The values of the innermost variable of a name that stands and is listed, if there is one. Takes the memory of these
    /// values alone.
    pub fn variable(&self, alloc: Global, name: &[u8]) -> Result<Option<Ints>, AllocError>
        ensures { IfOk result (λ found. found ≡ innermost_values name.now (listed_of self.now self.now.slots)) }
    {
        match cells_named(&self.slots, name) {
            None => Ok(None),
            Some(cells) => Ok(Some(self.values_from(alloc, cells.from(), cells.count())?)),
        }
    }

    /// How many starts were made, fewer than 2^31.
    pub fn start_count(&self) -> u32
        ensures count { result ≡ length self.now.starts }
        ensures bound { result < 2 ^ 31 }
    {
        self.starts.len() as u32
    }

    /// A start more. Out of memory also where there would be 2^31.
    pub fn begin(&mut self, start: Begun) -> Result<(), AllocError>
        ensures { OnOk result (self.new ≡ begun start self.old) }
    {
        if self.starts.len() >= INT_LIMIT as usize - 1 {
            return Err(AllocError);
        }
        self.starts.push(start)?;
        Ok(())
    }

    pub fn start_at(&self, number: u32) -> Begun
        ensures { result ≡ begun_at number self.now }
    {
        let number = number as usize;
        if number < self.starts.len() {
            self.starts[number]
        } else {
            Begun {
                comm: 0,
                buffer: Range::nothing(),
            }
        }
    }

    /// The members of a communicator, fewer than 2^31.
    pub fn members(&self, rank: Rank, comm: u32) -> Option<&[u8]>
        requires { rank.ranks ≤ MOST_RANKS }
        ensures members { option_map (λ members. members.now) result ≡ members_known rank.ranks self.now comm }
        ensures bound { IfSome result (λ members. length members.now < 2 ^ 31) }
    {
        if comm == 0 {
            return Some(&self.world.as_slice()[..rank.ranks as usize]);
        }
        members_among(&self.made, comm)
    }

    /// Notes the communicators that items made. Out of memory also where one would have 2^31 members.
    pub fn learn(&mut self, items: &[Item]) -> Result<(), AllocError>
        ensures { OnOk result (self.new ≡ with_communicators items.now self.old) }
    {
        learn_all(self.alloc, &mut self.made, items)
    }

    fn at(&self, cell: usize) -> i32
        ensures { result ≡ cell_at self.now cell }
    {
        if cell < self.cells.len() {
            self.cells[cell]
        } else {
            0
        }
    }

    fn set(&mut self, cell: usize, value: i32)
        ensures { self.new ≡ put cell value self.old }
    {
        if cell < self.cells.len() {
            self.cells[cell] = value;
        }
    }

    /// The values of `count` cells from one on.
    #[tactic(auto, using(crate::proofs::StateLaws::values_last))]
    fn values_from(&self, alloc: Global, from: u32, count: u32) -> Result<Ints, AllocError>
        ensures { IfOk result (λ ints. ints ≡ values_from from count self.now) }
    {
        let mut found = Ints::new(alloc);
        for i in 0..count {
            found.push(self.at(from as usize + i as usize))?;
        }
        Ok(found)
    }

    /// A variable more, on cells that stand.
    fn add_slot(&mut self, name: &'p Bytes, is_listed: bool, cells: Range) -> Result<(), AllocError>
        ensures { OnOk result (self.new ≡ with_cells name.now is_listed cells self.old) }
    {
        self.slots.reserve(1)?;
        self.slots.push_reserved(Slot {
            depth: self.opens.saturating_sub(1),
            name,
            is_listed,
            cells,
        });
        Ok(())
    }

    /// A variable of one cell with this value.
    fn add_number(&mut self, name: &'p Bytes, value: i32) -> Result<(), AllocError>
        requires { length self.old.cells < MOST_CELLS }
        ensures { OnOk result (self.new ≡ with_slot name.now 1 1 (value ∷ []) self.old) }
    {
        let from = self.cells.len() as u32;
        self.cells.push(value)?;
        self.add_slot(name, true, Range::new(from, 1, 1))
    }

    /// The listed ones of some variables.
    fn listed_of(&self, alloc: Global, slots: &[Slot<'p>]) -> Result<Variables, AllocError>
        ensures { IfOk result (λ found. found ≡ listed_of self.now (map slot_view slots.now)) }
    {
        let mut found = Variables::new(alloc);
        let mut rest = slots;
        while let [slot, after @ ..] = rest {
            self.push_listed(&mut found, slot)?;
            rest = after;
        }
        Ok(found)
    }

    /// Adds a variable, if it is listed.
    fn push_listed(&self, found: &mut Variables, slot: &Slot<'p>) -> Result<(), AllocError>
        ensures { OnOk result (found.new ≡ found.old ++ listed_of self.now (slot_view slot.now ∷ [])) }
    {
        if slot.is_listed {
            let variable = self.variable_of(self.alloc, slot)?;
            found.push(variable)?;
        }
        Ok(())
    }

    /// A variable's values.
    fn variable_of(&self, alloc: Global, slot: &Slot<'p>) -> Result<Variable, AllocError>
        ensures { IfOk result (λ found. found ≡ variable_of self.now (slot_view slot.now)) }
    {
        Ok(Variable {
            depth: slot.depth,
            name: Bytes::copy_of(slot.name)?,
            values: self.values_from(alloc, slot.cells.from(), slot.cells.count())?,
        })
    }
}

/// The cells of the innermost variable of a name that is listed, if there is one.
fn cells_named(slots: &[Slot<'_>], name: &[u8]) -> Option<Range>
    ensures { result ≡ cells_named name.now None (map slot_view slots.now) }
{
    let mut found = None;
    let mut rest = slots;
    while let [slot, after @ ..] = rest {
        found = later_named(found, slot, name);
        rest = after;
    }
    found
}

/// The cells of a variable, if it is listed and has the name, and else those of one further out.
fn later_named(found: Option<Range>, slot: &Slot<'_>, name: &[u8]) -> Option<Range>
    ensures { result ≡ cells_named name.now found (slot_view slot.now ∷ []) }
{
    if slot.is_listed && name == slot.name.as_slice() {
        Some(slot.cells)
    } else {
        found
    }
}

pub fn width_of(kind: VariableKind) -> u32
    ensures { result ≡ width_of kind }
{
    match kind {
        VariableKind::Status => 3,
        _ => 1,
    }
}

fn push_first(cells: &mut Vec<i32>, kind: VariableKind) -> Result<(), AllocError>
    ensures ok { OnOk result (cells.new.items ≡ cells.old.items ++ first_cells kind) }
    ensures err { OnErr result (cells.new.items ≡ cells.old.items) }
{
    match kind {
        VariableKind::Int => cells.extend_from_slice(&[0]),
        VariableKind::Status => cells.extend_from_slice(&[ANY_SOURCE, NULL, 0]),
        VariableKind::Request | VariableKind::Communicator => cells.extend_from_slice(&[NULL]),
    }
}

/// Pushes the first cells of some elements.
fn push_firsts(cells: &mut Vec<i32>, kind: VariableKind, elements: u32) -> Result<(), AllocError>
    ensures ok { OnOk result (cells.new.items ≡ cells.old.items ++ repeated elements (first_cells kind)) }
    ensures bound { length cells.new.items ≤ length cells.old.items + length (repeated elements (first_cells kind)) }
{
    for _i in 0..elements {
        push_first(cells, kind)?;
    }
    Ok(())
}

/// The int of an argument; 0 where it is none.
fn number_in(passed: Option<Passed>) -> i32
    ensures { result ≡ passed_number passed }
{
    match passed {
        Some(Passed::Number(value)) => value,
        _ => 0,
    }
}

/// The cells of an argument; none where it is an int.
fn cells_in(passed: Option<Passed>) -> Range
    ensures { result ≡ cells_in passed }
{
    match &passed {
        Some(Passed::Cells(cells)) => *cells,
        _ => Range::nothing(),
    }
}

fn members_among<'k>(made: &'k [MadeCommunicator], comm: u32) -> Option<&'k [u8]>
    requires { HaveIntSizes made.now }
    ensures members { option_map (λ members. members.now) result ≡ members_among made.now comm }
    ensures bound { IfSome result (λ members. length members.now < 2 ^ 31) }
{
    let mut rest = made;
    while let [known, others @ ..] = rest {
        if known.comm == comm {
            return Some(known.members.as_slice());
        }
        rest = others;
    }
    None
}

/// Notes the communicator that a reply tells of.
fn learn_one(alloc: Global, made: &mut Vec<MadeCommunicator>, got: &Got) -> Result<(), AllocError>
    requires { HaveIntSizes made.old.items }
    ensures ok { OnOk result (made.new.items ≡ made.old.items ++ made_by got.now) }
    ensures sizes { HaveIntSizes made.new.items }
{
    if let Got::Made { comm, members } = got {
        if *comm != 0 {
            let members = members.as_slice();
            if members.len() >= INT_LIMIT as usize {
                return Err(AllocError);
            }
            let members = Ranks::from_slice(alloc, members)?;
            made.push(MadeCommunicator {
                comm: *comm,
                members,
            })?;
        }
    }
    Ok(())
}

fn learn_all(
    alloc: Global,
    made: &mut Vec<MadeCommunicator>,
    items: &[Item],
) -> Result<(), AllocError>
    requires { HaveIntSizes made.old.items }
    ensures ok { OnOk result (made.new.items ≡ made.old.items ++ made_by_all items.now) }
    ensures sizes { HaveIntSizes made.new.items }
{
    let mut rest = items;
    while let [item, after @ ..] = rest {
        learn_one(alloc, made, &item.got)?;
        rest = after;
    }
    Ok(())
}
