//! A rank's place to sleep.
use std::sync::Wait;
use std::sync::atomic::{AtomicU64, Ordering};
use std::thread::Parker;
use std::time::Duration;

/// The rank works.
pub const WORKS: u64 = 0;

/// The rank sleeps until it is woken.
pub const SLEEPS: u64 = 1;

/// The rank has looked in vain, and rests until it is woken or a while is over.
pub const RESTS: u64 = 2;

/// The rank rested, and looks on since all slept.
pub const LOOKS: u64 = 3;

/// The rank was told to leave the round.
pub const LEAVES: u64 = 4;

/// How long a rest takes at most, in milliseconds.
const REST: u64 = 20;

/// As many numbers as keep the places out of each other's lines of the cache, whose size is 64 bytes, or 128 in pairs.
const ROOM: usize = 13;

/// A rank's place to sleep, in lines of the cache of its own.
#[derive(Drop)]
pub struct SleepingPlace {
    /// How many events were rung for that may concern the rank.
    rung: AtomicU64,
    /// What the rank does: one of the five numbers above.
    state: AtomicU64,
    parker: Parker,
    room: [u64; ROOM],
}

impl SleepingPlace {
    /// The place of a rank that works.
    pub fn new() -> SleepingPlace {
        SleepingPlace {
            rung: AtomicU64::new(0),
            state: AtomicU64::new(WORKS),
            parker: Parker::new(),
            room: [0; ROOM],
        }
    }

    pub fn state(&self) -> u64 {
        self.state.load(Ordering::SeqCst)
    }

    pub fn set(&self, state: u64) {
        self.state.store(state, Ordering::SeqCst);
    }

    /// Back to work; tells what the rank did.
    pub fn work(&self) -> u64 {
        self.state.swap(WORKS, Ordering::SeqCst)
    }

    /// Gives the rank another state if it has this one. Tells whether it had.
    pub fn change(&self, from: u64, to: u64) -> bool {
        self.state
            .compare_exchange(from, to, Ordering::SeqCst, Ordering::SeqCst)
            .is_ok()
    }

    /// Gives the rank another state if it has this one, and wakes its thread. Tells whether it had.
    pub fn wake(&self, from: u64, to: u64) -> bool {
        let is_changed = self.change(from, to);
        if is_changed {
            self.parker.unpark();
        }
        is_changed
    }

    /// How many events were rung for.
    pub fn rung(&self) -> u64 {
        self.rung.load(Ordering::SeqCst)
    }

    /// Rings for one event more.
    pub fn ring(&self) {
        let _ = self.rung.fetch_add(1, Ordering::SeqCst);
    }

    /// The rank's thread sleeps for as long as the rank has this state.
    pub fn park_while<R: Wait>(&self, rt: &R, state: u64) {
        for _ in rt.forever() {
            if self.state() != state {
                return;
            }
            self.parker.park(rt);
        }
        unreachable!()
    }

    /// The rank's thread sleeps for as long as a rest takes at most, or less long.
    pub fn doze<R: Wait>(&self, rt: &R) {
        self.parker.park_timeout(rt, Duration::from_millis(REST));
    }
}
