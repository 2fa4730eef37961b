//! What the table's proofs know of each seat, the rule that they keep, and what each kind of step does.
//!
//! No value of `Stage`, `Account` or `TokenView` is ever made: they exist in proofs alone, where a number never wraps.
use crate::ledger::Ledger;
use atomic_table::{Join, Play, Split, TableRule};
use std::collections::LinkedList;
use std::snapshot::Snapshot;

/// What a seat does, with its ticket.
pub enum Stage {
    Idle,
    Waiting(u64),
    Turn(u64),
}

/// A seat's number, its own entries and the entries that it has seen.
pub struct Account<E> {
    pub number: u64,
    pub own: LinkedList<(u64, E)>,
    pub seen: LinkedList<(u64, E)>,
}

/// What one token of the table knows. It has one account while the lock is in use, several while seats are split off
/// or joined, and none once it was joined to another. There its frame is `None`.
pub struct TokenView<E, F> {
    pub stage: Stage,
    pub accounts: LinkedList<Account<E>>,
    pub frame: Option<F>,
}

/// What the lock was made of.
#[derive(Drop)]
pub struct Terms<T> {
    pub seats: u32,
    pub first: Snapshot<T>,
}

/// The rule of the lock's table: `TurnRule`.
pub struct LockRule;

impl<T: Ledger> TableRule<Option<T>, TokenView<T::Entry, T::Frame>, Terms<T>> for LockRule {
    ghost use Rattle.turn_lock.specs.Rule.{TurnRule, first_view};

    ghost holds = { λ terms. TurnRule T.entries T.frame terms.seats (T.frame terms.first.value) };

    ghost first = { λ terms. first_view terms.seats (T.frame terms.first.value) };
}

/// A seat draws the next ticket.
pub struct Draw;

impl<T: Ledger> Play<Option<T>, TokenView<T::Entry, T::Frame>> for Draw {
    ghost use Rattle.turn_lock.specs.Steps.{Draws};

    ghost then = { Draws };
}

/// A seat reads which ticket is served, and takes the value if it is its own.
pub struct Read;

impl<T: Ledger> Play<Option<T>, TokenView<T::Entry, T::Frame>> for Read {
    ghost use Rattle.turn_lock.specs.Steps.{ReadsTurn};

    ghost then = { ReadsTurn T.entries T.frame };
}

/// The seat with the turn gives the value back and has the next ticket served.
pub struct Advance;

impl<T: Ledger> Play<Option<T>, TokenView<T::Entry, T::Frame>> for Advance {
    ghost use Rattle.turn_lock.specs.Steps.{Advances};

    ghost then = { Advances T.entries };
}

/// The first account goes to a token of its own.
pub struct SplitFirst;

impl<E, F> Split<TokenView<E, F>> for SplitFirst {
    ghost use Rattle.turn_lock.specs.Steps.{without_first, first_alone};

    ghost left = { without_first };

    ghost right = { first_alone };
}

/// One token takes over another's accounts.
pub struct JoinAccounts;

impl<E, F> Join<TokenView<E, F>> for JoinAccounts {
    ghost use Rattle.turn_lock.specs.Steps.{both_views, spent_view};

    ghost both = { both_views };

    ghost spent = { spent_view };
}
