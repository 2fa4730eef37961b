//! Numbers in a row, of which two rows are the same only where they stand for the same.
ghost use Rattle.std.specs.Prelude.{◌≡◌, ◌++◌, ◌∷◌, [], OnOk, pos};
ghost use Rattle.mpi_call.specs.Halts.{fault_number};
ghost use Rattle.run_states.specs.Codes.{code_of_entries, code_of_entry, code_of_halt, code_of_ints, code_of_items, code_of_lists, code_of_mark, code_of_numbers};

use mpi_call::call::{Fault, Halt};
use srr_entry::entry::{Entry, Mark, Marked};
use srr_entry::log::Entries;
use std::alloc::{AllocError, Global};

/// The numbers of a code, in order.
#[derive(Drop, PartialEq, Eq, Hash)]
pub struct StateCode {
    pub numbers: Vec<i64>,
}

impl StateCode {
    /// No numbers.
    pub fn new(alloc: Global) -> Self
        ensures { result.numbers.items ≡ [] }
    {
        StateCode {
            numbers: Vec::new(alloc),
        }
    }

    /// Adds a number.
    pub fn push(&mut self, number: u32) -> Result<(), AllocError>
        ensures { OnOk result (self.new.numbers.items ≡ self.old.numbers.items ++ pos number ∷ []) }
    {
        self.numbers.push(number as i64)?;
        Ok(())
    }

    /// Adds an int.
    pub fn push_int(&mut self, int: i32) -> Result<(), AllocError>
        ensures { OnOk result (self.new.numbers.items ≡ self.old.numbers.items ++ int ∷ []) }
    {
        self.numbers.push(int as i64)?;
        Ok(())
    }

    /// Adds a length. One past 63 bits is a want of memory.
    pub fn push_len(&mut self, len: usize) -> Result<(), AllocError>
        ensures { OnOk result (self.new.numbers.items ≡ self.old.numbers.items ++ pos len ∷ []) }
    {
        let Ok(len) = i64::try_from(len) else {
            return Err(AllocError);
        };
        self.numbers.push(len)?;
        Ok(())
    }
}

/// Adds how many ints there are, and these.
pub fn add_ints(code: &mut StateCode, ints: &[i32]) -> Result<(), AllocError>
    ensures { OnOk result (code.new.numbers.items ≡ code.old.numbers.items ++ code_of_ints ints.now) }
{
    code.push_len(ints.len())?;
    let mut rest = ints;
    while let [int, after @ ..] = rest {
        code.push_int(*int)?;
        rest = after;
    }
    Ok(())
}

/// Adds how many members there are, and these.
pub fn add_members(code: &mut StateCode, members: &[u8]) -> Result<(), AllocError>
    ensures { OnOk result (code.new.numbers.items ≡ code.old.numbers.items ++ code_of_numbers members.now) }
{
    code.push_len(members.len())?;
    let mut rest = members;
    while let [member, after @ ..] = rest {
        code.push(*member as u32)?;
        rest = after;
    }
    Ok(())
}

/// The faults are numbered from 1.
fn fault_number(fault: Fault) -> u32
    ensures { result ≡ fault_number fault }
{
    match fault {
        Fault::DivideByZero => 1,
        Fault::OutOfBounds => 2,
        Fault::BadRank => 3,
        Fault::BadTag => 4,
        Fault::BadCount => 5,
        Fault::BadComm => 6,
        Fault::Budget => 7,
        Fault::OutputFull => 8,
        Fault::Depth => 9,
        Fault::Cells => 10,
    }
}

fn push_two(code: &mut StateCode, kind: u32, first: u32) -> Result<(), AllocError>
    ensures { OnOk result (code.new.numbers.items ≡ code.old.numbers.items ++ pos kind ∷ pos first ∷ []) }
{
    code.push(kind)?;
    code.push(first)
}

fn push_three(code: &mut StateCode, kind: u32, first: u32, second: u32) -> Result<(), AllocError>
    ensures { OnOk result (code.new.numbers.items ≡ code.old.numbers.items ++ pos kind ∷ pos first ∷ pos second ∷ []) }
{
    push_two(code, kind, first)?;
    code.push(second)
}

fn push_four(
    code: &mut StateCode,
    kind: u32,
    first: u32,
    second: u32,
    third: u32,
) -> Result<(), AllocError>
    ensures { OnOk result (code.new.numbers.items ≡ code.old.numbers.items ++ pos kind ∷ pos first ∷ pos second ∷ pos third ∷ []) }
{
    push_three(code, kind, first, second)?;
    code.push(third)
}

/// Adds a halt.
pub fn add_halt(code: &mut StateCode, halt: &Halt) -> Result<(), AllocError>
    ensures { OnOk result (code.new.numbers.items ≡ code.old.numbers.items ++ code_of_halt halt.now) }
{
    match halt {
        Halt::Aborted { rank, code: status } => {
            push_two(code, 1, *rank as u32)?;
            code.push_int(*status)
        }
        Halt::Trapped { rank, fault } => push_three(code, 2, *rank as u32, fault_number(*fault)),
        Halt::Truncated { rank, start } => push_three(code, 3, *rank as u32, *start),
        Halt::Mismatched { rank } => push_two(code, 4, *rank as u32),
        Halt::BadRequest { rank, start } => push_three(code, 5, *rank as u32, *start),
        Halt::Limit => code.push(6),
        Halt::Stuck => code.push(7),
    }
}

/// Adds what a completed start gave.
pub fn add_mark(code: &mut StateCode, mark: &Mark) -> Result<(), AllocError>
    ensures { OnOk result (code.new.numbers.items ≡ code.old.numbers.items ++ code_of_mark mark.now) }
{
    match mark {
        Mark::Sent => code.push(1),
        Mark::Nothing => code.push(2),
        Mark::Inside { source, start } => push_three(code, 3, *source as u32, *start),
        Mark::Outside {
            source,
            start,
            tag,
            ints,
        } => {
            push_four(code, 4, *source as u32, *start, *tag)?;
            add_ints(code, ints.as_slice())
        }
        Mark::Inner => code.push(5),
        Mark::Outer { ints } => {
            code.push(6)?;
            add_ints(code, ints.as_slice())
        }
        Mark::Made { comm } => push_two(code, 7, *comm),
        Mark::MadeOutside { comm, members } => {
            push_two(code, 8, *comm)?;
            add_members(code, members.as_slice())
        }
    }
}

/// Adds a completed start.
fn add_item(code: &mut StateCode, item: &Marked) -> Result<(), AllocError>
    ensures { OnOk result (code.new.numbers.items ≡ code.old.numbers.items ++ pos item.now.index ∷ code_of_mark item.now.mark) }
{
    code.push(item.index)?;
    add_mark(code, &item.mark)
}

/// Adds how many starts were completed, and these.
pub fn add_items(code: &mut StateCode, items: &[Marked]) -> Result<(), AllocError>
    ensures { OnOk result (code.new.numbers.items ≡ code.old.numbers.items ++ code_of_items items.now) }
{
    code.push_len(items.len())?;
    let mut rest = items;
    while let [item, after @ ..] = rest {
        add_item(code, item)?;
        rest = after;
    }
    Ok(())
}

/// Adds an entry.
pub fn add_entry(code: &mut StateCode, entry: &Entry) -> Result<(), AllocError>
    ensures { OnOk result (code.new.numbers.items ≡ code.old.numbers.items ++ code_of_entry entry.now) }
{
    match entry {
        Entry::Sent => code.push(1),
        Entry::Posted => code.push(2),
        Entry::Entered => code.push(3),
        Entry::Ended => code.push(4),
        Entry::Took(items) => {
            code.push(5)?;
            add_items(code, items.as_slice())
        }
        Entry::NotYet => code.push(6),
        Entry::PeekedInside { source, start } => push_three(code, 7, *source as u32, *start),
        Entry::PeekedOutside {
            source,
            start,
            tag,
            count,
        } => {
            push_four(code, 8, *source as u32, *start, *tag)?;
            code.push(*count)
        }
        Entry::Stopped(halt) => {
            code.push(9)?;
            add_halt(code, halt)
        }
    }
}

/// Adds how many entries a rank has, and these.
pub fn add_entries(code: &mut StateCode, entries: &[Entry]) -> Result<(), AllocError>
    ensures { OnOk result (code.new.numbers.items ≡ code.old.numbers.items ++ code_of_entries entries.now) }
{
    code.push_len(entries.len())?;
    let mut rest = entries;
    while let [entry, after @ ..] = rest {
        add_entry(code, entry)?;
        rest = after;
    }
    Ok(())
}

/// Adds the entries of each rank.
pub fn add_lists(code: &mut StateCode, lists: &[Entries]) -> Result<(), AllocError>
    ensures { OnOk result (code.new.numbers.items ≡ code.old.numbers.items ++ code_of_lists lists.now) }
{
    code.push_len(lists.len())?;
    let mut rest = lists;
    while let [entries, after @ ..] = rest {
        add_entries(code, entries.as_slice())?;
        rest = after;
    }
    Ok(())
}
