//! Lists of ints and of ranks.
ghost use Rattle.std.specs.Prelude.{◌≡◌, ◌++◌, ◌∷◌, [], OnOk};
ghost use Rattle.srr_log2.specs.Fields.{GivesFields, coded_many};
ghost use Rattle.srr_log2.specs.EntryReading.{coded_int, coded_ints, coded_members, coded_rank};

use crate::field::{byte, count, int, rank};
use crate::read_error::bad_entry;
use mpi_call::limits::MOST_RANKS;
use mpi_call::lists::{Ints, Ranks};
use srr_log::read_error::ReadError;
use std::alloc::{AllocError, Global};
use wiz_base::Cursor;

/// So many ints at most: how many, and then these.
#[tactic(auto, unfolding(crate::specs::EntryReading::coded_ints))]
pub fn ints(alloc: Global, cursor: &mut Cursor<'_>, most: u32) -> Result<Ints, ReadError>
    ensures { GivesFields (coded_ints most cursor.old) result cursor.new }
{
    let count = count(cursor, most)?;
    many_ints(alloc, cursor, count)
}

fn many_ints(alloc: Global, cursor: &mut Cursor<'_>, count: u32) -> Result<Ints, ReadError>
    ensures { GivesFields (coded_many coded_int count cursor.old) result cursor.new }
{
    let mut found = Ints::new(alloc);
    let mut left = count;
    while left > 0 {
        left -= 1;
        let int = int(cursor)?;
        add_int(&mut found, int)?;
    }
    Ok(found)
}

fn add_int(found: &mut Ints, int: i32) -> Result<(), AllocError>
    ensures { OnOk result (found.new ≡ found.old ++ int ∷ []) }
{
    found.push(int)?;
    Ok(())
}

/// The members of a communicator: how many, and then these.
#[tactic(auto, unfolding(crate::specs::EntryReading::coded_members))]
pub fn members(alloc: Global, cursor: &mut Cursor<'_>, ranks: u8) -> Result<Ranks, ReadError>
    ensures { GivesFields (coded_members ranks cursor.old) result cursor.new }
{
    let (count, left) = byte(cursor)?;
    if count < 1 || count > MOST_RANKS {
        return Err(bad_entry(left));
    }
    many_ranks(alloc, cursor, ranks, count)
}

fn many_ranks(
    alloc: Global,
    cursor: &mut Cursor<'_>,
    ranks: u8,
    count: u8,
) -> Result<Ranks, ReadError>
    ensures { GivesFields (coded_many (coded_rank ranks) count cursor.old) result cursor.new }
{
    let mut found = Ranks::new(alloc);
    let mut left = count;
    while left > 0 {
        left -= 1;
        let rank = rank(cursor, ranks)?;
        add_rank(&mut found, rank)?;
    }
    Ok(found)
}

fn add_rank(found: &mut Ranks, rank: u8) -> Result<(), AllocError>
    ensures { OnOk result (found.new ≡ found.old ++ rank ∷ []) }
{
    found.push(rank)?;
    Ok(())
}
