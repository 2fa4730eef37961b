//! Where ranks sleep until another rank does what they may wait for. No clause speaks of it: a rank that wakes attempts again, and a
//! rank that is told that all sleep leaves its round. So a rank that is woken in vain, or not at all, costs time alone.
use crate::patience::{MOST, MOST_BESIDE_OTHERS, Patience};
use crate::place::{LEAVES, LOOKS, RESTS, SLEEPS, SleepingPlace, WORKS};
use mpi_call::call::{Call, Kind, Source};
use mpi_call::limits::MOST_RANKS;
use mpi_call::reply::Reply;
use std::sync::Wait;
use std::sync::atomic::{AtomicU64, Ordering};
use std::{array, hint, thread};

/// The places to sleep: one for each rank.
const PLACES: usize = MOST_RANKS as usize;

/// How often a thread lets others run before it goes on without those that have not started.
const TURNS: u32 = 5000;

/// How often a rank looks whether the door is free before its thread sleeps.
const DOOR_LOOKS: u32 = 80;

/// How often it does so, or looks whether it was woken, before it lets others run where there are more ranks than processors.
const SPINS: u32 = 60;

/// Nobody is inside the door, somebody is, and somebody is while others sleep before it.
const FREE: u64 = 0;

const TAKEN: u64 = 1;

const AWAITED: u64 = 2;

/// As many numbers as keep two words out of each other's lines of the cache.
const ROOM: usize = 15;

/// A word that many threads change, in lines of the cache of its own.
#[derive(Drop)]
struct Word {
    value: AtomicU64,
    room: [u64; ROOM],
}

impl Word {
    fn new() -> Word {
        Word {
            value: AtomicU64::new(0),
            room: [0; ROOM],
        }
    }
}

/// What a rank that rested does.
pub enum Rested {
    /// It looks again.
    Looks,
    /// It looks on, since all sleep.
    LooksOn,
    /// It leaves the round.
    Leaves,
}

/// The bell of all rounds: a place for each rank, by its number.
#[derive(Drop)]
pub struct Bell {
    /// How many ranks have started in this round, or have nothing to do.
    started: AtomicU64,
    /// 1 once a rank went on in this round without those that had not started.
    late: AtomicU64,
    /// How many ranks work.
    awake: Word,
    /// Before the lock: a thread that runs goes in rather than one that sleeps, so the lock does not wait for a thread to wake.
    door: Word,
    /// 1 from the first synchronous send on, else 0: before it no rank waits for a receive to be posted.
    synchronous: AtomicU64,
    /// How often a rank entered a collective of all ranks in which each waits for all.
    entered: AtomicU64,
    /// The rank that last looked on where all slept.
    looker: AtomicU64,
    ranks: u64,
    /// Whether there is a processor for each rank.
    has_processors: bool,
    /// Whether a rank that looks in vain rests.
    may_rest: bool,
    places: [SleepingPlace; PLACES],
}

impl Bell {
    /// A bell for so many ranks on so many processors, and whether a rank that looks in vain rests.
    pub fn new(ranks: usize, processors: usize, may_rest: bool) -> Bell {
        Bell {
            started: AtomicU64::new(0),
            late: AtomicU64::new(0),
            awake: Word::new(),
            door: Word::new(),
            synchronous: AtomicU64::new(0),
            entered: AtomicU64::new(0),
            looker: AtomicU64::new(0),
            ranks: ranks as u64,
            has_processors: ranks <= processors,
            may_rest,
            places: array::from_fn(|_| SleepingPlace::new()),
        }
    }

    /// A round begins, in which no rank has started. No thread of an earlier one is left.
    pub fn begin_round(&self) {
        self.started.store(0, Ordering::SeqCst);
        self.late.store(0, Ordering::SeqCst);
        self.awake.value.store(0, Ordering::SeqCst);
        for place in &self.places {
            place.set(WORKS);
        }
    }

    /// A rank begins to work. It waits a while for all ranks to have started, so that none is taken for asleep.
    pub fn start(&self) {
        let _ = self.awake.value.fetch_add(1, Ordering::SeqCst);
        let _ = self.started.fetch_add(1, Ordering::SeqCst);
        for _ in 0..TURNS {
            if self.are_all_there() {
                return;
            }
            thread::yield_now();
        }
    }

    /// A rank has nothing to do in this round.
    pub fn skip(&self) {
        let _ = self.started.fetch_add(1, Ordering::SeqCst);
        self.end_if_all_sleep();
    }

    /// A rank that works leaves the round, or falls asleep. If all others sleep, they leave, or one that rests looks on.
    pub fn leave(&self) {
        if self.awake.value.fetch_sub(1, Ordering::SeqCst) == 1 {
            self.end_if_all_sleep();
        }
    }

    /// Whether a rank went on in this round without others that had not started, since the system gave them no threads, or none in time.
    pub fn was_late(&self) -> bool {
        self.late.load(Ordering::SeqCst) != 0
    }

    /// How many events it was rung for that may concern a rank. Events that concern others alone do not count: else a rank that waits
    /// for its turn at the lock would attempt again for each of them.
    pub fn heard(&self, rank: u8) -> u64 {
        self.place(rank).rung()
    }

    /// Goes in at the door before the lock.
    pub fn go_in<R: Wait>(&self, rt: &R) {
        for look in 0..DOOR_LOOKS {
            if self.is_taken_first() {
                return;
            }
            self.pause(look);
        }
        for _ in rt.forever() {
            if self.door.value.swap(AWAITED, Ordering::SeqCst) == FREE {
                return;
            }
            self.door.value.park(rt, AWAITED as u32);
        }
    }

    /// Comes out, and wakes one that sleeps before the door.
    pub fn come_out(&self) {
        if self.door.value.swap(FREE, Ordering::SeqCst) == AWAITED {
            self.door.value.wake_one();
        }
    }

    fn is_taken_first(&self) -> bool {
        self.door.value.load(Ordering::SeqCst) == FREE
            && self
                .door
                .value
                .compare_exchange(FREE, TAKEN, Ordering::SeqCst, Ordering::SeqCst)
                .is_ok()
    }

    /// Whether a rank that looks in vain rests.
    pub fn may_rest(&self) -> bool {
        self.may_rest
    }

    /// Whether there was a synchronous send.
    fn has_synchronous(&self) -> bool {
        self.synchronous.load(Ordering::SeqCst) != 0
    }

    /// Rings for an event of a rank: whoever may wait for it wakes. Of a send that is its receiver; of a posted receive the sender, once
    /// there are synchronous sends; of an entry into a collective those who wait for it; of a halt it may be anyone.
    pub fn ring(&self, rank: u8, call: &Call, reply: &Reply) {
        match reply {
            Reply::Stopped(_) => self.wake_all(),
            _ => match call {
                Call::Send { dest, sync, .. } => {
                    if *sync {
                        self.synchronous.store(1, Ordering::SeqCst);
                    }
                    self.wake(self.place(*dest));
                }
                Call::Post { source, .. } => self.ring_posted(source),
                Call::Enter {
                    comm,
                    kind,
                    root,
                    ..
                } => self.ring_entered(rank, *comm, *kind, root),
                _ => {}
            },
        }
    }

    /// Rings for a posted receive, which may complete a synchronous send. A sender attempts to complete its send only after it has
    /// rung for it: so a receive that is posted before that ring needs none of its own.
    fn ring_posted(&self, source: &Source) {
        if !self.has_synchronous() {
            return;
        }
        match source {
            Source::From(rank) => self.wake(self.place(*rank)),
            Source::Any => self.wake_all(),
            Source::Null => {}
        }
    }

    /// Rings for an entry into a collective. What goes from one member to all concerns all if the member is the root, and what goes from
    /// all to one the root; where each waits for all, whoever enters last rings.
    fn ring_entered(&self, rank: u8, comm: u32, kind: Kind, root: &Option<u8>) {
        match kind {
            Kind::Bcast | Kind::Scatter => {
                if *root == Some(rank) {
                    self.wake_all();
                }
            }
            Kind::Reduce | Kind::Gather => {
                if let Some(root) = root {
                    self.wake(self.place(*root));
                }
            }
            Kind::Scan => self.wake_all(),
            _ => {
                if comm != 0 || self.is_last_to_enter() {
                    self.wake_all();
                }
            }
        }
    }

    /// Whether all ranks have entered as often as the one that does so now.
    fn is_last_to_enter(&self) -> bool {
        let entered = self.entered.fetch_add(1, Ordering::SeqCst).wrapping_add(1);
        self.ranks == 0 || entered % self.ranks == 0
    }

    /// A rank waits for an event that concerns it, after those that it has heard of. Tells whether there may be one; else all sleep,
    /// and the rank has left the round.
    pub fn sleep<R: Wait>(&self, rt: &R, rank: u8, heard: u64, patience: &mut Patience) -> bool {
        let place = self.place(rank);
        place.set(SLEEPS);
        if self.heard(rank) != heard {
            // Who woke it meanwhile has counted it once more.
            if place.work() == WORKS {
                let _ = self.awake.value.fetch_sub(1, Ordering::SeqCst);
            }
            return true;
        }
        self.leave();
        self.wait_for_others(place);
        self.is_woken(rt, place, patience)
    }

    /// A rank that looked in vain waits for an event that concerns it, after those that it has heard of, at most for a while.
    pub fn rest<R: Wait>(&self, rt: &R, rank: u8, heard: u64) -> Rested {
        let place = self.place(rank);
        place.set(RESTS);
        if self.heard(rank) != heard {
            if place.work() == WORKS {
                let _ = self.awake.value.fetch_sub(1, Ordering::SeqCst);
            }
            return Rested::Looks;
        }
        self.leave();
        self.wait_for_others(place);
        if place.state() == RESTS {
            place.doze(rt);
            let _ = self.awake.value.fetch_add(1, Ordering::SeqCst);
            if !place.change(RESTS, WORKS) {
                let _ = self.awake.value.fetch_sub(1, Ordering::SeqCst);
            }
        }
        match place.work() {
            LOOKS => Rested::LooksOn,
            LEAVES => Rested::Leaves,
            _ => Rested::Looks,
        }
    }

    fn place(&self, rank: u8) -> &SleepingPlace {
        &self.places[rank as usize % PLACES]
    }

    fn are_all_there(&self) -> bool {
        self.started.load(Ordering::SeqCst) >= self.ranks || self.was_late()
    }

    /// A rank that fell asleep while others have not started lets these run, and in the end goes on without them.
    fn wait_for_others(&self, place: &SleepingPlace) {
        for _ in 0..TURNS {
            if self.are_all_there() || place.state() == WORKS {
                return;
            }
            thread::yield_now();
        }
        self.late.store(1, Ordering::SeqCst);
        self.end_if_all_sleep();
    }

    /// Waits until the rank is woken, or told to leave. Tells whether it was woken.
    fn is_woken<R: Wait>(&self, rt: &R, place: &SleepingPlace, patience: &mut Patience) -> bool {
        if !self.is_woken_soon(place, patience) {
            place.park_while(rt, SLEEPS);
        }
        place.state() == WORKS
    }

    /// Looks whether the rank is woken, as often as it has patience: with as many processors as ranks the thread keeps its own
    /// meanwhile, else it lets others run.
    fn is_woken_soon(&self, place: &SleepingPlace, patience: &mut Patience) -> bool {
        for look in 0..patience.looks(self.most_looks()) {
            if place.state() != SLEEPS {
                patience.paid(look);
                return true;
            }
            self.pause(look);
        }
        patience.was_in_vain();
        false
    }

    /// How often a rank looks at most whether it was woken.
    fn most_looks(&self) -> u32 {
        if self.has_processors {
            MOST
        } else {
            MOST_BESIDE_OTHERS
        }
    }

    /// Between two looks. Where there are more ranks than processors, others run at each of the later ones.
    fn pause(&self, look: u32) {
        if self.has_processors || look < SPINS {
            hint::spin_loop();
        } else {
            thread::yield_now();
        }
    }

    /// Tells the rank of this place of an event, and wakes it if it sleeps. It is counted among those that work before it wakes, so
    /// that it never takes itself for the last of them.
    fn wake(&self, place: &SleepingPlace) {
        place.ring();
        let state = place.state();
        if state == SLEEPS || state == RESTS {
            self.rouse(place, state, WORKS);
        }
    }

    /// Gives a rank another state if it has this one, and counts it among those that work.
    fn rouse(&self, place: &SleepingPlace, from: u64, to: u64) -> bool {
        let _ = self.awake.value.fetch_add(1, Ordering::SeqCst);
        let is_roused = place.wake(from, to);
        if !is_roused {
            let _ = self.awake.value.fetch_sub(1, Ordering::SeqCst);
        }
        is_roused
    }

    fn wake_all(&self) {
        for place in &self.places {
            self.wake(place);
        }
    }

    /// Where all ranks have started and none works: one that rests looks on, else all leave the round. They also leave where some ranks
    /// did not start: these may be waiting for the thread of one that looks.
    fn end_if_all_sleep(&self) {
        if !self.are_all_there() || self.awake.value.load(Ordering::SeqCst) != 0 {
            return;
        }
        if self.was_late() || !self.look_on() {
            for place in &self.places {
                let _ = place.wake(SLEEPS, LEAVES);
                let _ = place.wake(RESTS, LEAVES);
            }
        }
    }

    /// Has the next rank that rests look on. Tells whether there is one.
    fn look_on(&self) -> bool {
        let last = self.looker.load(Ordering::SeqCst) as usize;
        for step in 1..PLACES + 1 {
            let next = last.wrapping_add(step) % PLACES;
            if self.places[next].state() == RESTS && self.rouse(&self.places[next], RESTS, LOOKS) {
                self.looker.store(next as u64, Ordering::SeqCst);
                return true;
            }
        }
        false
    }
}
