ghost use Rattle.std.specs.Prelude.{◌≡◌, ◌<◌, ◌≤◌, false, length, IfOk, OnOk};
ghost use Rattle.turn_lock.specs.Entries.{Grows};
ghost use Rattle.turn_lock.specs.Seats.{AllIdle};

use std::alloc::{AllocError, Global};
use std::sync::Wait;
use std::test::Fail;
use std::thread;
use std::thread::Threads;
use turn_lock::{Ledger, Seat, TurnLock};

/// Numbers, each with the seat that added it.
#[derive(Drop)]
struct Numbers {
    items: Vec<(u32, u32)>,
}

impl Ledger for Numbers {
    type Entry = u32;

    type Frame = ();

    ghost entries = { λ v. v.items.items };

    ghost frame = { λ v. tt };
}

impl Numbers {
    fn add(&mut self, seat: u32, number: Option<u32>) -> Result<(), AllocError>
        ensures { OnOk result (Grows seat self.old.items.items self.new.items.items) }
    {
        if let Some(x) = number {
            self.items.push((seat, x))?;
        }
        Ok(())
    }
}

/// A turn of the seat k, which adds a number or none. Says how many entries it found.
#[tactic(auto, using(turn_lock::proofs::Callers::idle_set))]
fn turn<R: Wait>(
    rt: &R,
    lock: &TurnLock<Numbers>,
    seats: &mut [Seat<Numbers>],
    k: usize,
    number: Option<u32>,
) -> Result<usize, AllocError>
    requires seats { AllIdle lock.now seats.old }
    requires inside { k < length seats.old }
    ensures { OnOk result (AllIdle lock.now seats.new) }
{
    let seat = &mut seats[k];
    let mut held = lock.hold(rt, seat);
    let found = held.value.items.len();
    held.value.add(seat.number(), number)?;
    lock.release(seat, held);
    Ok(found)
}

/// A turn of each seat, on threads, which adds nothing.
fn turn_of_each<T: Ledger + Send, R: Threads + Wait + Sync>(
    rt: &R,
    lock: &TurnLock<T>,
    seats: &mut [Seat<T>],
)
    requires { (0 < length seats.old) × AllIdle lock.now seats.old }
    ensures { AllIdle lock.now seats.new }
{
    let threads = seats.len();
    thread::for_each_mut(rt, seats, threads, &|_, seat| empty_turn(rt, lock, seat));
}

fn empty_turn<T: Ledger, R: Wait>(rt: &R, lock: &TurnLock<T>, seat: &mut Seat<T>)
    requires { (seat.old.lock ≡ lock.now) × (seat.old.holds ≡ false) }
    ensures { (seat.new.lock ≡ lock.now) × (seat.new.holds ≡ false) × (seat.new.number ≡ seat.old.number) }
{
    let held = lock.hold(rt, seat);
    lock.release(seat, held);
}

#[tactic(auto, using(turn_lock::proofs::Callers::idle_from_fresh))]
fn lock_of(alloc: Global, seats: u32) -> Result<(TurnLock<Numbers>, Vec<Seat<Numbers>>), AllocError>
    requires { (0 < seats) × (seats ≤ 64) }
    ensures count { IfOk result (λ r. r.0.seats ≡ seats) }
    ensures seats { IfOk result (λ r. AllIdle r.0 r.1.items) }
{
    let numbers = Numbers {
        items: Vec::new(alloc),
    };
    TurnLock::new(alloc, numbers, seats)
}

#[tactic(auto, using(turn_lock::proofs::Callers::idle_all))]
fn closed(lock: TurnLock<Numbers>, seats: Vec<Seat<Numbers>>) -> Numbers
    requires { AllIdle lock seats.items }
{
    lock.close(seats)
}

#[test]
fn new_seats_are_numbered_and_have_no_entries(rt: HostRuntime) -> Result<(), Fail> {
    let (lock, seats) = lock_of(rt.alloc(), 3)?;
    assert_eq!(rt; seats.len(), 3);
    for k in 0..3 {
        assert_eq!(rt; seats[k].number() as usize, k);
    }
    assert!(rt; closed(lock, seats).items.is_empty());
    Ok(())
}

#[test]
fn seats_take_turns(rt: HostRuntime) -> Result<(), Fail> {
    let (lock, mut seats) = lock_of(rt.alloc(), 3)?;
    let all = seats.as_mut_slice();
    assert_eq!(rt; turn(&rt, &lock, all, 0, Some(10))?, 0);
    assert_eq!(rt; turn(&rt, &lock, all, 2, Some(20))?, 1);
    assert_eq!(rt; turn(&rt, &lock, all, 0, None)?, 2);
    turn_of_each(&rt, &lock, all);
    let numbers = closed(lock, seats);
    assert_eq!(rt; numbers.items.as_slice(), [(0, 10), (2, 20)].as_slice());
    Ok(())
}
