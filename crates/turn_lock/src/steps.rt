//! The kinds of step on the table: a ticket is drawn, the served word is read, the value is taken and given back, the
//! next ticket is served, a token is split, two are joined.
ghost use Rattle.std.specs.Prelude.{◌≡◌, ℕ, ◌%◌, ◌^◌, ◌<◌, [], ◌∷◌, ◌+◌, length, Some, None};
ghost use Rattle.turn_lock.specs.Entries.{Grows};
ghost use Rattle.turn_lock.specs.Rule.{fresh_accounts, seen_in};
ghost use Rattle.turn_lock.specs.Steps.{with_stage, turn_passed, without_first, first_alone, both_views};
ghost use Rattle.turn_lock.specs.Steps.{IsLockTable, IsOneAccount, Takes};
ghost use Rattle.turn_lock.specs.declared.view.Stage.TheVariants.{Idle, Waiting, Turn};

use crate::ledger::Ledger;
use crate::sleepers::Sleepers;
use crate::view::{Advance, Draw, JoinAccounts, LockRule, Read, SplitFirst, Terms, TokenView};
use atomic_table::{Seat, Shared};
use std::hint;
use std::sync::Wait;

pub type LockTable<T> = Shared<
    Option<T>,
    TokenView<<T as Ledger>::Entry, <T as Ledger>::Frame>,
    Terms<T>,
    LockRule,
>;

pub type SeatToken<T> = Seat<Option<T>, TokenView<<T as Ledger>::Entry, <T as Ledger>::Frame>>;

/// The word with the next ticket.
const TICKET: usize = 0;

/// The word with the ticket that is served.
const SERVED: usize = 1;

/// The slot of the value.
const VALUE: usize = 0;

/// How often a waiter reads the served word before it sleeps, and how often while its turn is the next one.
const SPINS: u32 = 100;

const NEXT_SPINS: u32 = 2000;

pub fn take_turn<T: Ledger, R: Wait>(
    rt: &R,
    table: &LockTable<T>,
    sleepers: &Sleepers,
    token: &mut SeatToken<T>,
) -> T
    requires table { IsLockTable table.now.table_id × (token.old.table_id ≡ table.now.table_id) }
    requires idle { (token.old.me.0.stage ≡ Idle) × (token.old.me.1 ≡ []) × (0 < length token.old.me.0.accounts) }
    ensures table { token.new.table_id ≡ token.old.table_id }
    ensures takes { Takes T.entries T.frame token.old.me result token.new.me }
{
    let ticket = draw(table, token);
    wait(rt, table, sleepers, token, ticket)
}

fn draw<T: Ledger>(table: &LockTable<T>, token: &mut SeatToken<T>) -> u64
    requires table { IsLockTable table.now.table_id × (token.old.table_id ≡ table.now.table_id) }
    requires idle { (token.old.me.0.stage ≡ Idle) × (token.old.me.1 ≡ []) × (0 < length token.old.me.0.accounts) }
    ensures table { token.new.table_id ≡ token.old.table_id }
    ensures waits { (t : ℕ) × (result ≡ t % 2 ^ 64) × (token.new.me ≡ (with_stage (Waiting t) token.old.me.0, [])) }
{
    table.fetch_add::<Draw>(token, TICKET, 1)
}

/// Waits until the ticket is served, and takes the value.
fn wait<T: Ledger, R: Wait>(
    rt: &R,
    table: &LockTable<T>,
    sleepers: &Sleepers,
    token: &mut SeatToken<T>,
    ticket: u64,
) -> T
    requires table { IsLockTable table.now.table_id × (token.old.table_id ≡ table.now.table_id) }
    requires waits { (t : ℕ) × (ticket ≡ t % 2 ^ 64) × (token.old.me.0.stage ≡ Waiting t) × (token.old.me.1 ≡ []) }
    ensures table { token.new.table_id ≡ token.old.table_id }
    ensures takes { Takes T.entries T.frame token.old.me result token.new.me }
{
    let mut spins = 0;
    for _ in rt.forever() {
        let served = table.load::<Read>(token, SERVED);
        if served == ticket {
            let Some(value) = table.exchange(token, VALUE, None) else {
                unreachable!()
            };
            return value;
        }
        if spins < spins_at(ticket.wrapping_sub(served)) {
            spins += 1;
            hint::spin_loop();
        } else {
            sleepers.sleep(rt, ticket);
        }
    }
    unreachable!()
}

/// How often a waiter reads the served word before it sleeps, where so many turns come first.
fn spins_at(turns: u64) -> u32 {
    if turns == 1 { NEXT_SPINS } else { SPINS }
}

/// Gives the value back and serves the next ticket.
pub fn give_turn<T: Ledger>(
    table: &LockTable<T>,
    sleepers: &Sleepers,
    token: &mut SeatToken<T>,
    value: T,
)
    requires table { IsLockTable table.now.table_id × (token.old.table_id ≡ table.now.table_id) }
    requires turn { ((t : ℕ) × (token.old.me.0.stage ≡ Turn t)) × (token.old.me.1 ≡ (0, None) ∷ []) }
    requires grows { let accounts = token.old.me.0.accounts in
        (k : ℕ) × IsOneAccount k accounts × Grows k (seen_in accounts) (T.entries value) }
    requires frame { Some (T.frame value) ≡ token.old.me.0.frame }
    ensures table { token.new.table_id ≡ token.old.table_id }
    ensures passed { token.new.me ≡ (turn_passed (T.entries value) token.old.me.0, []) }
{
    let None = table.exchange(token, VALUE, Some(value)) else {
        unreachable!()
    };
    let served = table.fetch_add::<Advance>(token, SERVED, 1);
    sleepers.call(served.wrapping_add(1));
}

/// A token for the first account.
pub fn split<T: Ledger>(table: &LockTable<T>, token: &mut SeatToken<T>) -> SeatToken<T>
    requires table { IsLockTable table.now.table_id × (token.old.table_id ≡ table.now.table_id) }
    requires idle { token.old.me.0.stage ≡ Idle }
    requires fresh { (k : ℕ) × (n : ℕ) × (token.old.me.0.accounts ≡ fresh_accounts k (n + 1)) }
    ensures table { token.new.table_id ≡ token.old.table_id }
    ensures left { token.new.me ≡ (without_first token.old.me.0, token.old.me.1) }
    ensures right { (result.table_id ≡ token.old.table_id) × (result.me ≡ (first_alone token.old.me.0, [])) }
{
    table.split_seat::<SplitFirst>(token)
}

/// Takes over the accounts of another token.
pub fn join<T: Ledger>(table: &LockTable<T>, token: &mut SeatToken<T>, other: SeatToken<T>)
    requires table { IsLockTable table.now.table_id × (token.old.table_id ≡ table.now.table_id) }
    requires idle { (token.old.me.0.stage ≡ Idle) × (0 < length token.old.me.0.accounts) }
    requires other { (other.table_id ≡ table.now.table_id) × (other.me.0.stage ≡ Idle) × (other.me.1 ≡ []) }
    ensures table { token.new.table_id ≡ token.old.table_id }
    ensures both { token.new.me ≡ (both_views token.old.me.0 other.me.0, token.old.me.1) }
{
    table.join_seat::<JoinAccounts>(token, other);
}
