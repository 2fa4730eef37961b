//! A seat, and what its holder works on.
ghost use Rattle.std.specs.Prelude.{◌≡◌, ◌<◌, ◌∷◌, [], false};
ghost use Rattle.turn_lock.specs.Rule.{account, idle_view};
ghost use Rattle.turn_lock.specs.Seat.{new_seat, lock_on};
ghost use Rattle.turn_lock.specs.declared.view.Stage.TheVariants.{Idle};

use crate::ledger::Ledger;
use crate::steps::SeatToken;
use crate::view::Terms;
use std::marker::Model;

/// The locked value, in the hands of the seat that holds.
#[derive(Drop)]
pub struct Held<T> {
    pub value: T,
}

/// A thread's place at a lock. Contracts see its lock, its number, its own entries, the entries that it has seen, and
/// whether it holds.
#[derive(Drop)]
pub struct Seat<T: Ledger> {
    pub(crate) number: u32,
    pub(crate) seats: u32,
    pub(crate) token: SeatToken<T>,
}

impl<T: Ledger> Model for Seat<T> {
    ghost use Rattle.std.specs.Prelude.{◌<◌};
    ghost use Rattle.turn_lock.specs.Seat.{SeatView};
    ghost use Rattle.turn_lock.specs.Steps.{own_in};
    ghost use Rattle.turn_lock.specs.Rule.{seen_in};
    ghost use Rattle.turn_lock.specs.Rests.{IsAtRest, has_turn};

    ghost Value = { SeatView T.Entry T.Frame };

    ghost view = { λ s. record {
      lock = record { table = s.token.table_id; seats = s.seats; frame = s.token.me.0.frame };
      number = s.number;
      own = own_in s.token.me.0.accounts;
      seen = seen_in s.token.me.0.accounts;
      holds = has_turn s.token.me.0.stage;
    } };

    ghost invariant = { λ s. (s.number < s.seats) × IsAtRest s.number s.token.me };
}

impl<T: Ledger> Seat<T> {
    /// The number under which this seat's entries stand.
    pub fn number(&self) -> u32
        ensures { result ≡ self.now.number }
    {
        self.number
    }
}

/// A new seat with this number.
pub fn seat_at<T: Ledger>(token: SeatToken<T>, number: u32, terms: &Terms<T>) -> Seat<T>
    requires number { number < terms.now.seats }
    requires token { token.me ≡ (idle_view (account number [] [] ∷ []) (T.frame terms.now.first.value), []) }
    ensures { result ≡ new_seat (lock_on token.table_id terms.now.seats (T.frame terms.now.first.value)) number }
{
    Seat {
        number,
        seats: terms.seats,
        token,
    }
}

/// The token of a seat that doesn't hold.
pub fn token_of<T: Ledger>(seat: Seat<T>) -> SeatToken<T>
    requires { seat.holds ≡ false }
    ensures table { result.table_id ≡ seat.lock.table }
    ensures idle { (result.me.0.stage ≡ Idle) × (result.me.1 ≡ []) }
    ensures account { result.me.0.accounts ≡ account seat.number seat.own seat.seen ∷ [] }
{
    let Seat { token, .. } = seat;
    token
}
