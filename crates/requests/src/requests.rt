//! What ranks started and what of it was taken.
ghost use Rattle.std.specs.Prelude.{◌≡◌, ◌<◌, ◌++◌, ◌∷◌, [], ℕ, List, Some, true, false, length, replicate, IfOk, IsOk, IsTrue, OnErr};
ghost use Rattle.mpi_call.specs.declared.call.Call.{Call};
ghost use Rattle.mpi_call.specs.Calls.{comm_of, is_enter, is_starting};
ghost use Rattle.run_model.specs.declared.event.Event.{Event};
ghost use Rattle.mpi_call.specs.Members.{is_member};
ghost use Rattle.mpi_call.specs.Needs.{IsEnterOf};
ghost use Rattle.run_model.specs.Choice.{choice};
ghost use Rattle.run_model.specs.Communicators.{known_in};
ghost use Rattle.run_model.specs.Pairs.{Name, name_at};
ghost use Rattle.run_model.specs.Program.{IsInForm};
ghost use Rattle.run_model.specs.Views.{items_taken, moment_at, view_of};
ghost use Rattle.match_core.specs.Starts.{is_message, is_peek, is_post, AreBelow, IsEarliest};
ghost use Rattle.collectives.specs.Boards.{board_answer};
ghost use Rattle.collectives.specs.declared.instances.Entered.TheVariants.{Disagrees as DisagreesWith};
ghost use Rattle.match_core.specs.Histories.{IsAdded};
ghost use Rattle.requests.specs.declared.requests.TakeAnswer.TheVariants.{Took};
ghost use Rattle.requests.specs.Starts.{all_marked, found_in, name_at_position, row_of, with_row};
ghost use Rattle.requests.specs.States.{first_state, with_rows, IsAbovePositions, IsEntered, IsPaired, IsPosted, IsStarted, MayEnter, MatchingState};
ghost use Rattle.requests.specs.Taking.{answer_at, answer_in, hands_out, readiness_of, rows_at, rows_after, AreHandedOut};
ghost use Rattle.requests.specs.Histories.{Answers, AnswersAt, IsIdleEvent, IsReadiness, KnowsHistory, KnowsPosted, KnowsStarted, KnowsTaken, KnowsTakenAt};

use crate::answer::{answer, answer_at};
use crate::complete::readiness;
use crate::enter::{entered, joined, left};
use crate::rows::{
    add_named, drop_start, mark_in, mark_picked, mark_taken, name_in, pair, put_name,
};
use crate::start::{RankAndStart, Row};
use collectives::board::{Board, comm_of};
use collectives::instances::Entered;
use comms::communicators::Comms;
use match_core::matcher::Matcher;
use mpi_call::call::{Call, TakeMode};
use mpi_call::lists::Starts;
use mpi_call::reply::Items;
use std::alloc::{AllocError, Global};
use std::marker::Model;

/// The answer to a Send, Post or Enter.
#[derive(Clone, Copy, Debug, PartialEq, Eq)]
pub enum Started {
    /// It has this number among its rank's starts, and a partner at this position of the history.
    Made { start: u32, mate: Option<u32> },
    /// An earlier Enter of the instance, by this rank, does not agree; nothing has changed.
    Disagrees { other: u8 },
}

/// Whether a start can be taken.
#[derive(Clone, Copy, Debug, PartialEq, Eq)]
pub enum Readiness {
    Ready,
    NotReady,
    /// It was never made.
    NoSuch,
    /// It was taken before.
    Taken,
}

/// The answer to a Take.
#[derive(Drop)]
pub enum TakeAnswer {
    /// What the chosen starts give.
    Took(Items),
    /// The mode's condition fails.
    NotReady,
    /// The message of this receive is longer than its room.
    TooLong { start: u32 },
    /// This start was never made, was taken before, or stands twice in the list.
    BadStart { start: u32 },
}

/// The starts of all ranks; contracts see each rank's starts, who has entered what, the communicators, the names of starts by
/// position, and the Sends and Posts without a partner.
#[derive(Drop)]
pub struct Requests {
    rows: Vec<Row>,
    names: Vec<Option<RankAndStart>>,
    matcher: Matcher,
    board: Board,
    comms: Comms,
    alloc: Global,
}

impl Model for Requests {
    ghost use Rattle.requests.specs.States.{IsSound, MatchingState, table_of};

    ghost Value = { MatchingState };

    ghost view = { λ s. record { table = table_of s.rows.items s.board s.comms; names = s.names.items; unpaired = s.matcher } };

    ghost invariant = { λ s. IsSound (table_of s.rows.items s.board s.comms) };
}

impl Requests {
    /// No starts of `ranks` ranks.
    pub fn new(alloc: Global, ranks: u8) -> Result<Self, AllocError>
        ensures value { IfOk result (λ requests. requests ≡ first_state ranks) }
        ensures knows { IfOk result (λ requests. KnowsHistory ranks [] requests) }
    {
        let rows = empty_rows(alloc, ranks)?;
        let comms = Comms::new(alloc, ranks)?;
        Ok(Requests {
            rows,
            names: Vec::new(alloc),
            matcher: Matcher::new(alloc),
            board: Board::new(alloc),
            comms,
            alloc,
        })
    }

    /// Adds the Send, Post or Enter of a rank that stands at position `at` of the history. A Send or Post gets the earliest
    /// partner that fits. An Enter that does not agree with an earlier one of its instance is not added, changes nothing and
    /// takes no memory. When out of memory, nothing has changed.
    pub fn start(&mut self, at: u32, rank: u8, call: &Call) -> Result<Started, AllocError>
        requires kind { IsTrue (is_starting call.now) }
        requires enter { is_enter call.now ≡ true → MayEnter self.old.table.comms rank call.now }
        requires position { IsAbovePositions at self.old }
        requires rank { rank < length self.old.table.rows }
        ensures ok { IfOk result (λ started. IsStarted self.old self.new at rank call.now started) }
        ensures err { OnErr result (self.new ≡ self.old) }

        // An Enter that does not agree takes no memory.
        ensures disagrees { (other : ℕ) → is_enter call.now ≡ true → board_answer self.old.table.stages rank call.now ≡ DisagreesWith other → IsOk result }
        ensures knows { IfOk result (λ started. (n : ℕ) (events : List Event) → KnowsHistory n events self.old → at ≡ length events → IsInForm n rank (view_of events rank) call.now → KnowsStarted n events rank call.now started self.new) }
    {
        match call {
            Call::Enter { .. } => self.enter(at, rank, call),
            _ => self.message(at, rank, call),
        }
    }

    /// Adds a Send or Post. When out of memory, nothing has changed.
    fn message(&mut self, at: u32, rank: u8, call: &Call) -> Result<Started, AllocError>
        requires kind { IsTrue (is_message call.now) }
        requires position { IsAbovePositions at self.old }
        requires rank { rank < length self.old.table.rows }
        ensures ok { IfOk result (λ started. IsPaired self.old self.new at rank call.now started) }
        ensures err { OnErr result (self.new ≡ self.old) }
        ensures knows { IfOk result (λ started. (n : ℕ) (events : List Event) → KnowsHistory n events self.old → at ≡ length events → KnowsStarted n events rank call.now started self.new) }
    {
        let start = add_named(&mut self.rows, &mut self.names, at, rank, call, 0)?;
        let Ok(mate) = matched(&mut self.matcher, at, rank, call) else {
            drop_start(&mut self.rows, rank);
            return Err(AllocError);
        };
        pair(&mut self.rows, &self.names, (rank, start), mate);
        put_name(&mut self.names, at, (rank, start));
        Ok(Started::Made { start, mate })
    }

    /// Adds a Post that takes the earliest unpaired Send of this sender that it accepts, and answers its position. Where that
    /// sender has none, and when out of memory, nothing has changed.
    pub fn post_from(
        &mut self,
        at: u32,
        rank: u8,
        call: &Call,
        sender: u8,
    ) -> Result<Option<u32>, AllocError>
        requires kind { IsTrue (is_post call.now) }
        requires position { IsAbovePositions at self.old }
        requires rank { rank < length self.old.table.rows }
        ensures ok { IfOk result (λ mate. IsPosted self.old self.new at rank call.now mate) }
        ensures err { OnErr result (self.new ≡ self.old) }
        ensures knows { IfOk result (λ mate. (n : ℕ) (events : List Event) → KnowsHistory n events self.old → at ≡ length events → KnowsPosted (moment_at n events rank) call.now sender mate self.new) }
    {
        let start = add_named(&mut self.rows, &mut self.names, at, rank, call, 0)?;
        let Some(mate) = self.matcher.post_from(rank, call, sender) else {
            drop_start(&mut self.rows, rank);
            return Ok(None);
        };
        pair(&mut self.rows, &self.names, (rank, start), Some(mate));
        put_name(&mut self.names, at, (rank, start));
        Ok(Some(mate))
    }

    /// Adds an Enter: first to the board, from which it is taken back when memory runs out later. Then nothing has changed.
    fn enter(&mut self, at: u32, rank: u8, call: &Call) -> Result<Started, AllocError>
        requires kind { is_enter call.now ≡ true }
        requires may { MayEnter self.old.table.comms rank call.now }
        requires position { IsAbovePositions at self.old }
        requires rank { rank < length self.old.table.rows }
        ensures ok { IfOk result (λ started. IsEntered self.old self.new at rank call.now started) }
        ensures err { OnErr result (self.new ≡ self.old) }
        ensures disagrees { (other : ℕ) → board_answer self.old.table.stages rank call.now ≡ DisagreesWith other → IsOk result }
        ensures knows { IfOk result (λ started. (n : ℕ) (events : List Event) → KnowsHistory n events self.old → at ≡ length events → IsInForm n rank (view_of events rank) call.now → KnowsStarted n events rank call.now started self.new) }
    {
        match entered(&mut self.board, rank, call)? {
            Entered::Disagrees { other } => Ok(Started::Disagrees { other }),
            Entered::Joined { instance } => {
                let Ok(start) = joined(
                    &mut self.rows,
                    &mut self.names,
                    &self.board,
                    &mut self.comms,
                    at,
                    rank,
                    call,
                    instance,
                ) else {
                    left(&mut self.board, rank, comm_of(call));
                    return Err(AllocError);
                };
                put_name(&mut self.names, at, (rank, start));
                Ok(Started::Made { start, mate: None })
            }
        }
    }

    /// Whether a start can be taken. Takes no memory.
    pub fn ready(&self, rank: u8, start: u32) -> Readiness
        ensures value { result ≡ readiness_of self.now.table rank (found_in self.now.table.rows (rank, start)) }
        ensures knows { (n : ℕ) (events : List Event) → KnowsHistory n events self.now → IsReadiness n events rank start result }
    {
        readiness(&self.rows, &self.board, &self.comms, rank, start)
    }

    /// Takes the chosen ones of the listed starts, where the mode's condition holds and no message is too long. Only
    /// `Took` changes anything and takes memory.
    pub fn take(
        &mut self,
        rank: u8,
        starts: &Starts,
        mode: TakeMode,
    ) -> Result<TakeAnswer, AllocError>
        requires rank { rank < length self.old.table.rows }
        ensures answer { IfOk result (λ answer. answer ≡ answer_in self.old.table rank starts.now mode) }
        ensures after { IfOk result (λ answer. self.new ≡ with_rows (rows_after self.old.table.rows rank starts.now answer) self.old) }
        ensures err { OnErr result (self.new ≡ self.old) }

        // Only what hands out items takes memory.
        ensures sure { hands_out (answer_in self.old.table rank starts.now mode) ≡ false → IsOk result }
        ensures knows { IfOk result (λ answer. (n : ℕ) (events : List Event) → KnowsHistory n events self.old → Answers n events rank starts.now mode answer) }
        ensures knows_on { IfOk result (λ answer. (n : ℕ) (events : List Event) → KnowsHistory n events self.old → KnowsTaken (moment_at n events rank) starts.now mode answer self.new) }
    {
        let listed = starts.as_slice();
        let answer = answer(
            self.alloc,
            &mut self.rows,
            &self.board,
            &self.comms,
            rank,
            listed,
            mode,
        )?;
        mark_taken(&mut self.rows, rank, listed, &answer);
        Ok(answer)
    }

    /// Takes the listed start at an index, where no listed start is bad, that one is complete and its message is not too long. Where a
    /// listed start is bad or that one is not complete there is no answer. Only `Took` changes anything and takes memory.
    pub fn take_at(
        &mut self,
        rank: u8,
        starts: &Starts,
        index: u32,
    ) -> Result<Option<TakeAnswer>, AllocError>
        requires rank { rank < length self.old.table.rows }
        ensures answer { IfOk result (λ answer. answer ≡ answer_at self.old.table rank starts.now index) }
        ensures after { IfOk result (λ answer. self.new ≡ with_rows (rows_at self.old.table.rows rank starts.now answer) self.old) }
        ensures err { OnErr result (self.new ≡ self.old) }
        ensures knows { IfOk result (λ answer. (n : ℕ) (events : List Event) → KnowsHistory n events self.old → AnswersAt n events rank starts.now index answer) }
        ensures knows_on { IfOk result (λ answer. (n : ℕ) (events : List Event) → KnowsHistory n events self.old → KnowsTakenAt n events rank starts.now answer self.new) }
    {
        let listed = starts.as_slice();
        let answer = answer_at(
            self.alloc,
            &mut self.rows,
            &self.board,
            &self.comms,
            rank,
            listed,
            index,
        )?;
        mark_picked(&mut self.rows, rank, listed, &answer);
        Ok(answer)
    }

    /// Makes the starts at these items' indices such as were not taken. Right after a `take` or `take_at` that handed out the
    /// items, all is as before it. Takes no memory.
    pub fn untake(&mut self, rank: u8, starts: &Starts, items: &Items)
        requires rank { rank < length self.old.table.rows }
        ensures after { self.new ≡ with_rows (with_row rank (all_marked false (items_taken starts.now items.now) (row_of self.old.table.rows rank)) self.old.table.rows) self.old }
        ensures back { (before : MatchingState) → AreHandedOut before.table rank starts.now items.now → self.old ≡ with_rows (rows_after before.table.rows rank starts.now (Took items.now)) before → self.new ≡ before }
    {
        let listed = starts.as_slice();
        mark_in(&mut self.rows, rank, listed, items.as_slice(), false);
    }

    /// The position of the Send that a probe finds: the earliest unpaired one that it accepts. Takes no memory.
    pub fn peek(&self, rank: u8, call: &Call) -> Option<u32>
        requires kind { IsTrue (is_peek call.now) }
        ensures earliest { IsEarliest rank call.now self.now.unpaired result }
        ensures knows { (n : ℕ) (events : List Event) → KnowsHistory n events self.now → result ≡ choice events rank call.now }
    {
        self.matcher.peek(rank, call)
    }

    /// The number, among its rank's starts, of the start at a position. Takes no memory.
    pub fn name_at(&self, at: u32) -> u32
        ensures value { (name : Name) → name_at_position self.now.names at ≡ Some name → result ≡ name.1 }
        ensures knows { (n : ℕ) (events : List Event) (name : Name) → KnowsHistory n events self.now → name_at events at ≡ Some name → result ≡ name.1 }
    {
        match name_in(&self.names, at) {
            Some(name) => name.1,
            None => 0,
        }
    }

    /// What is known of a history stays known after every event that starts and completes nothing, and a new start may stand at
    /// the history's end.
    pub fn knows_on(&self)
        ensures idle { (n : ℕ) (events : List Event) (event : Event) → KnowsHistory n events self.now → IsIdleEvent event → KnowsHistory n (events ++ event ∷ []) self.now }
        ensures above { (n : ℕ) (events : List Event) → KnowsHistory n events self.now → IsAbovePositions (length events) self.now }

        // A rank may make an Enter that is in form by the history.
        ensures enters { (n rank : ℕ) (events : List Event) (call : Call) (members : List ℕ) → KnowsHistory n events self.now → known_in n (view_of events rank) (comm_of call) ≡ Some members → is_member members rank ≡ true → IsEnterOf call members rank → MayEnter self.now.table.comms rank call }
    {}
}

/// A row without starts for each rank.
fn empty_rows(alloc: Global, ranks: u8) -> Result<Vec<Row>, AllocError>
    ensures { IfOk result (λ rows. rows.items ≡ replicate ranks []) }
{
    let mut rows = Vec::new(alloc);
    for _rank in 0..ranks {
        rows.push(Row::new(alloc))?;
    }
    Ok(rows)
}

/// Adds a Send or Post to the matcher.
fn matched(matcher: &mut Matcher, at: u32, rank: u8, call: &Call) -> Result<Option<u32>, AllocError>
    requires kind { IsTrue (is_message call.now) }
    requires position { AreBelow at matcher.old }
    ensures added { IfOk result (λ mate. IsAdded at rank call.now matcher.old matcher.new mate) }
    ensures err { OnErr result (matcher.new ≡ matcher.old) }
{
    match call {
        Call::Send { .. } => matcher.send(at, rank, call),
        _ => matcher.post(at, rank, call),
    }
}
