//! The lock.
ghost use Rattle.std.specs.Prelude.{◌≡◌, ℕ, ◌<◌, ◌≤◌, ◌++◌, [], true, false, All, Any, IfOk};
ghost use Rattle.turn_lock.specs.Entries.{entries_of, StartsWith, Grows, appended};
ghost use Rattle.turn_lock.specs.Seat.{HasFrame, AreFresh};
ghost use Rattle.turn_lock.specs.declared.lock.TheConstants.{MOST_SEATS};

use crate::ends::{SeatTable, emptied, joined, laid, seated};
use crate::ledger::Ledger;
use crate::seat::{Held, Seat};
use crate::sleepers::Sleepers;
use crate::steps::{give_turn, take_turn};
use crate::view::Terms;
use std::alloc::{AllocError, Global};
use std::marker::Model;
use std::snapshot::Snapshot;
use std::sync::Wait;

/// The most seats of a lock.
pub const MOST_SEATS: u32 = 64;

/// A ticket lock: a word for the next ticket, a word for the ticket that is served, and a slot for the value.
/// Contracts see which lock it is, its number of seats and the frame of the value that it was made of.
#[derive(Drop)]
pub struct TurnLock<T: Ledger> {
    table: SeatTable<T>,
    sleepers: Sleepers,
}

impl<T: Ledger> Model for TurnLock<T> {
    ghost use Rattle.std.specs.Prelude.{◌<◌, ◌≤◌};
    ghost use Rattle.turn_lock.specs.Seat.{LockView, lock_on};
    ghost use Rattle.turn_lock.specs.Steps.{IsLockTable};
    ghost use Rattle.turn_lock.specs.declared.lock.TheConstants.{MOST_SEATS};

    ghost Value = { LockView T.Frame };

    ghost view = { λ l. lock_on l.table.shared.table_id l.table.shared.key.seats (T.frame l.table.shared.key.first.value) };

    ghost invariant = { λ l. IsLockTable l.table.shared.table_id
        × (0 < l.table.shared.key.seats) × (l.table.shared.key.seats ≤ MOST_SEATS) };
}

impl<T: Ledger> TurnLock<T> {
    /// A lock of this value, and its seats in the order of their numbers, from 0 on.
    pub fn new(
        alloc: Global,
        value: T,
        seats: u32,
    ) -> Result<(TurnLock<T>, Vec<Seat<T>>), AllocError>
    where
        T: Send,
        requires seats { (0 < seats) × (seats ≤ MOST_SEATS) }
        requires entries { T.entries value ≡ [] }
        ensures lock { IfOk result (λ r. (r.0.seats ≡ seats) × HasFrame r.0 (T.frame value)) }
        ensures seats { IfOk result (λ r. AreFresh r.0 r.1.items) }
    {
        let terms = Terms {
            seats,
            first: Snapshot::of(&value),
        };
        let (table, token) = laid(alloc, value, &terms)?;
        let all = seated(alloc, &table, token, &terms)?;
        Ok((
            TurnLock {
                table,
                sleepers: Sleepers::new(),
            },
            all,
        ))
    }

    /// Waits for the seat's turn, and hands out the value. It takes no memory. Nothing is said of how long it waits, or
    /// that its turn ever comes.
    pub fn hold<R: Wait>(&self, rt: &R, seat: &mut Seat<T>) -> Held<T>
        requires { (seat.old.lock ≡ self.now) × (seat.old.holds ≡ false) }
        ensures seat { seat.new ≡ record seat.old { seen = T.entries result.value; holds = true } }
        ensures seen { StartsWith (T.entries result.value) seat.old.seen }
        ensures own { entries_of seat.old.number (T.entries result.value) ≡ seat.old.own }
        ensures frame { HasFrame self.now (T.frame result.value) }
    {
        let value = take_turn(rt, &self.table.shared, &self.sleepers, &mut seat.token);
        Held { value }
    }

    /// Gives the value back, with one more entry of this seat or with none. It takes no memory.
    pub fn release(&self, seat: &mut Seat<T>, held: Held<T>)
        requires seat { (seat.old.lock ≡ self.now) × (seat.old.holds ≡ true) }
        requires entries { Grows seat.old.number seat.old.seen (T.entries held.value) }
        requires frame { HasFrame self.now (T.frame held.value) }
        ensures { seat.new ≡ record seat.old {
          own = seat.old.own ++ appended seat.old.seen (T.entries held.value);
          seen = T.entries held.value;
          holds = false;
        } }
    {
        let Held { value } = held;
        give_turn(&self.table.shared, &self.sleepers, &mut seat.token, value);
    }

    /// Ends the lock, for which it wants each of its seats, in any order, and hands out the value. It takes no memory.
    pub fn close(self, seats: Vec<Seat<T>>) -> T
        requires seats { All (λ s. (s.lock ≡ self) × (s.holds ≡ false)) seats.items }
        requires each { (k : ℕ) → k < self.seats → Any (λ s. s.number ≡ k) seats.items }
        ensures own { All (λ s. entries_of s.number (T.entries result) ≡ s.own) seats.items }
        ensures seen { All (λ s. StartsWith (T.entries result) s.seen) seats.items }
        ensures numbers { All (λ e. e.0 < self.seats) (T.entries result) }
        ensures frame { HasFrame self (T.frame result) }
    {
        let TurnLock { table, .. } = self;
        let token = joined(&table, seats);
        emptied(table, token)
    }
}
