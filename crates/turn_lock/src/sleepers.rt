//! Where waiters sleep. No clause speaks of it: whoever wakes reads the served word again.

use std::array;
use std::sync::Wait;
use std::thread::Parker;

/// As many tickets as can be drawn and not passed at a time.
const PLACES: u64 = 64;

/// A place to sleep for each ticket that can be waiting: the tickets of a lock's waiters follow one another, so no two
/// share a place.
#[derive(Drop)]
pub struct Sleepers {
    places: [Parker; 64],
}

impl Sleepers {
    pub fn new() -> Sleepers {
        Sleepers {
            places: array::from_fn(|_| Parker::new()),
        }
    }

    /// Sleeps until the ticket is called, and not at all if it was called since its last sleep. It may return early.
    pub fn sleep<R: Wait>(&self, rt: &R, ticket: u64) {
        self.places[(ticket % PLACES) as usize].park(rt);
    }

    /// Wakes the waiter with this ticket.
    pub fn call(&self, ticket: u64) {
        self.places[(ticket % PLACES) as usize].unpark();
    }
}
