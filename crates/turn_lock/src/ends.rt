//! How a lock begins, with one token that is split into seats, and how it ends, with the seats joined again.
ghost use Rattle.std.specs.Prelude.{◌≡◌, ℕ, ◌<◌, ◌≤◌, [], All, IfOk, Some, vec_len};
ghost use Rattle.turn_lock.specs.declared.lock.TheConstants.{MOST_SEATS};
ghost use Rattle.turn_lock.specs.inside.Ends.{accounts_at, IsIdleAt, HasAccount, EndsWith};
ghost use Rattle.turn_lock.specs.Rule.{first_view};
ghost use Rattle.turn_lock.specs.Seat.{AreFresh, lock_on};
ghost use Rattle.turn_lock.specs.Steps.{IsLockTable};
ghost use Rattle.turn_lock.specs.declared.view.Stage.TheVariants.{Idle};

use crate::ledger::Ledger;
use crate::seat::{Seat, seat_at, token_of};
use crate::steps::{SeatToken, join, split};
use crate::view::{LockRule, Terms, TokenView};
use atomic_table::Table;
use std::alloc::{AllocError, Global};

pub type SeatTable<T> = Table<
    Option<T>,
    TokenView<<T as Ledger>::Entry, <T as Ledger>::Frame>,
    Terms<T>,
    LockRule,
    Global,
>;

/// The table with the value in its slot, and the token that has every account.
pub fn laid<T: Ledger>(
    alloc: Global,
    value: T,
    terms: &Terms<T>,
) -> Result<(SeatTable<T>, SeatToken<T>), AllocError>
    requires seats { (0 < terms.now.seats) × (terms.now.seats ≤ MOST_SEATS) }
    requires value { (T.entries value ≡ []) × (terms.now.first.value ≡ value) }
    ensures table { IfOk result (λ r. IsLockTable r.0.shared.table_id × (r.0.shared.key ≡ terms.now)) }
    ensures token { IfOk result (λ r. r.1.table_id ≡ r.0.shared.table_id) }
    ensures view { IfOk result (λ r. r.1.me ≡ (first_view terms.now.seats (T.frame value), [])) }
{
    let mut slots = Vec::new(alloc);
    slots.push(Some(value))?;
    match Table::new(alloc, &[0, 0], slots, terms) {
        Ok(made) => Ok(made),
        Err(_) => Err(AllocError),
    }
}

/// A seat for each account, in the order of their numbers.
pub fn seated<T: Ledger>(
    alloc: Global,
    table: &SeatTable<T>,
    mut token: SeatToken<T>,
    terms: &Terms<T>,
) -> Result<Vec<Seat<T>>, AllocError>
    requires table { IsLockTable table.now.shared.table_id × (token.table_id ≡ table.now.shared.table_id) }
    requires seats { 0 < terms.now.seats }
    requires token { token.me ≡ (first_view terms.now.seats (T.frame terms.now.first.value), []) }
    ensures { IfOk result (λ v.
        AreFresh (lock_on token.table_id terms.now.seats (T.frame terms.now.first.value)) v.items) }
{
    let mut all = Vec::with_capacity(alloc, terms.seats as usize)?;
    let last = terms.seats - 1;
    for number in 0..last {
        let next = split(&table.shared, &mut token);
        all.push(seat_at(next, number, terms))?;
    }
    all.push(seat_at(token, last, terms))?;
    Ok(all)
}

/// One token with the accounts of all seats.
pub fn joined<T: Ledger>(table: &SeatTable<T>, mut seats: Vec<Seat<T>>) -> SeatToken<T>
    requires table { IsLockTable table.now.shared.table_id }
    requires seats { All (λ s. IsIdleAt table.now.shared.table_id s) seats.items }
    requires some { 0 < vec_len seats }
    ensures table { result.table_id ≡ table.now.shared.table_id }
    ensures idle { result.me.0.stage ≡ Idle }
    ensures accounts { result.me.0.accounts ≡ accounts_at seats.items }
{
    let Some(last) = seats.pop() else {
        unreachable!()
    };
    let mut token = token_of(last);
    while let Some(seat) = seats.pop() {
        join(&table.shared, &mut token, token_of(seat));
    }
    token
}

/// The value of a table that no seat holds any more.
pub fn emptied<T: Ledger>(table: SeatTable<T>, token: SeatToken<T>) -> T
    requires table { IsLockTable table.shared.table_id × (token.table_id ≡ table.shared.table_id) }
    requires idle { token.me.0.stage ≡ Idle }
    requires all { (k : ℕ) → k < table.shared.key.seats → HasAccount k token.me.0.accounts }
    ensures { let key = table.shared.key in
        EndsWith T.entries T.frame key.seats (T.frame key.first.value) token.me.0.accounts result }
{
    let mut closed = table.close_with(token);
    let last = closed.take(0);
    closed.free();
    let Some(value) = last else { unreachable!() };
    value
}
