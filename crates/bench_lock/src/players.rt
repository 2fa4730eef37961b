//! Seats that take turns, each on a thread of its own.
ghost use Rattle.std.specs.Prelude.{◌≡◌, ◌++◌, ◌∷◌, [], ◌<◌, ◌≤◌, ℕ, false, length, map, All, IfOk, slice_index_or};
ghost use Rattle.std.specs.Bool.{OnTrue};
ghost use Rattle.turn_lock.specs.Entries.{entries_of};
ghost use Rattle.turn_lock.specs.Seat.{AreFresh};
ghost use Rattle.turn_lock.specs.Seats.{AllIdle};
ghost use Rattle.bench_lock.specs.Players.{IsReady, HasPlayed, turns_of, player_at};
ghost use Rattle.bench_lock.specs.declared.players.Player.{Player};

use crate::tally::Tally;
use std::alloc::{AllocError, Global};
use std::sync::Wait;
use std::thread;
use std::thread::Threads;
use turn_lock::{Seat, TurnLock};

/// A seat, and whether memory was short in one of its turns.
#[derive(Drop)]
pub struct Player {
    seat: Seat<Tally>,
    is_short: bool,
}

impl Player {
    /// Takes the turns, or gives up once memory is short.
    fn play<R: Wait>(&mut self, rt: &R, lock: &TurnLock<Tally>, turns: u32)
        requires { IsReady lock.now self.old }
        ensures { HasPlayed lock.now turns self.old self.new }
    {
        for turn in 0..turns {
            if !add(rt, lock, &mut self.seat, turn) {
                self.is_short = true;
                return;
            }
        }
    }
}

/// One turn, which adds an entry if there is memory.
fn add<R: Wait>(rt: &R, lock: &TurnLock<Tally>, seat: &mut Seat<Tally>, turn: u32) -> bool
    requires { (seat.old.lock ≡ lock.now) × (seat.old.holds ≡ false) }
    ensures idle { (seat.new.lock ≡ lock.now) × (seat.new.holds ≡ false) × (seat.new.number ≡ seat.old.number) }
    ensures own { OnTrue result (seat.new.own ≡ seat.old.own ++ (seat.old.number, turn) ∷ []) }
{
    let mut held = lock.hold(rt, seat);
    let is_added = held.value.entries.push((seat.number(), turn)).is_ok();
    lock.release(seat, held);
    is_added
}

/// Runs the seats side by side until each has taken its turns, and gives what they added.
pub fn run<R: Threads + Wait + Sync>(
    rt: &R,
    alloc: Global,
    seats: u32,
    turns: u32,
) -> Result<Tally, AllocError>
    requires { (0 < seats) × (seats ≤ 64) }
    ensures each { IfOk result (λ t. (k : ℕ) → k < seats → entries_of k t.entries.items ≡ turns_of k turns) }
    ensures numbers { IfOk result (λ t. All (λ e. e.0 < seats) t.entries.items) }
{
    let tally = Tally {
        entries: Vec::new(alloc),
    };
    let (lock, seats) = TurnLock::new(alloc, tally, seats)?;
    let seats = played(rt, alloc, &lock, seats, turns)?;
    Ok(lock.close(seats))
}

/// The seats after their turns.
fn played<R: Threads + Wait + Sync>(
    rt: &R,
    alloc: Global,
    lock: &TurnLock<Tally>,
    seats: Vec<Seat<Tally>>,
    turns: u32,
) -> Result<Vec<Seat<Tally>>, AllocError>
    requires { (0 < lock.now.seats) × AreFresh lock.now seats.items }
    ensures idle { IfOk result (λ v. AllIdle lock.now v.items) }
    ensures own { IfOk result (λ v. All (λ s. s.own ≡ turns_of s.number turns) v.items) }
{
    let mut players = players_of(alloc, seats)?;
    play_all(rt, lock, players.as_mut_slice(), turns);
    seats_of(alloc, players)
}

/// Starts a thread for each player, where the system gives one, and waits for all.
fn play_all<R: Threads + Wait + Sync>(
    rt: &R,
    lock: &TurnLock<Tally>,
    players: &mut [Player],
    turns: u32,
)
    requires { (0 < length players.old) × All (λ p. IsReady lock.now p) players.old }
    ensures { (k : ℕ) (d : Player) → k < length players.old
        → HasPlayed lock.now turns (slice_index_or players.old k d) (slice_index_or players.new k d) }
{
    let threads = players.len();
    thread::for_each_mut(
        rt,
        players,
        threads,
        &|_, player| player.play(rt, lock, turns),
    );
}

fn players_of(alloc: Global, seats: Vec<Seat<Tally>>) -> Result<Vec<Player>, AllocError>
    ensures { IfOk result (λ v. v.items ≡ map player_at seats.items) }
{
    let mut players = Vec::with_capacity(alloc, seats.len())?;
    for seat in seats {
        players.push(Player {
            seat,
            is_short: false,
        })?;
    }
    Ok(players)
}

/// The seats of the players, if none was short of memory.
fn seats_of(alloc: Global, players: Vec<Player>) -> Result<Vec<Seat<Tally>>, AllocError>
    ensures seats { IfOk result (λ v. v.items ≡ map (λ p. p.seat) players.items) }
    ensures ample { IfOk result (λ v. All (λ p. p.is_short ≡ false) players.items) }
{
    let mut seats = Vec::with_capacity(alloc, players.len())?;
    for player in players {
        let Player { seat, is_short } = player;
        if is_short {
            return Err(AllocError);
        }
        seats.push(seat)?;
    }
    Ok(seats)
}

#[cfg(test)]
mod tests {
    use super::run;
    use std::test::Fail;

    #[test]
    fn two_threads_make_a_thousand_entries_each(rt: HostRuntime) -> Result<(), Fail> {
        let tally = run(&rt, rt.alloc(), 2, 1000)?;
        assert_eq!(rt; tally.entries.len(), 2000);
        for seat in 0..2 {
            let mut next = 0;
            for (number, turn) in tally.entries.as_slice() {
                if *number == seat {
                    assert!(rt;
                        *turn == next && next < 1000,
                        "seat {seat}: {turn} after {next}"
                    );
                    next += 1;
                }
            }
            assert_eq!(rt; next, 1000, "seat {seat}");
        }
        Ok(())
    }
}
