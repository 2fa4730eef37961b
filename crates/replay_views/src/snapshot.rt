//! Where a rank of a replay stands.
ghost use Rattle.std.specs.Prelude.{◌≡◌, [], IfOk, Option, Some, map, true};
ghost use Rattle.mpi_call.specs.declared.call.Call.{Call};
ghost use Rattle.replay_views.specs.Snapshots.{ahead_of, last_reply_in, snapshot_of, variables_by};
ghost use Rattle.run_model.specs.Program.{IsViewOf, Says};
ghost use Rattle.run_model.specs.Views.{replies_in};

use crate::given::catch_up;
use listed::Listed;
use mpi_call::call::Call;
use mpi_call::reply;
use mpi_call::reply::Reply;
use replay_model::replayed::Stand;
use run_model::event::Event;
use run_model::lists::Variables;
use run_model::program::{Program, RankRun, Want};
use std::alloc::{AllocError, Global};

/// What is ahead of a rank.
#[derive(Drop)]
pub enum Ahead {
    /// Its next call.
    Calls(Call),
    /// Nothing: it has ended.
    Ended,
    /// Nothing more in its log.
    LogEnded,
}

/// Where a rank stands.
#[derive(Drop)]
pub struct Snapshot {
    pub rank: u8,
    /// The number of its next call: how many of its calls were answered.
    pub number: usize,
    pub ahead: Ahead,
    /// Its last reply, if a call was answered.
    pub last: Option<Reply>,
    /// The variables that stand before its next call.
    pub variables: Variables,
}

/// Where some ranks stand, in order; contracts see a list.
pub type Snapshots = Listed<Snapshot>;

/// Where a rank stands that has seen these events: `run` is the rank before its first call. Runs it once.
pub fn snapshot_of<P: Program, R: RankRun<Of = P>>(
    alloc: Global,
    run: &mut R,
    rank: u8,
    own: &[&Event],
    stand: &Stand,
) -> Result<Snapshot, AllocError>
    requires rank { (R.standing run.old).rank ≡ rank }
    requires fresh { (R.standing run.old).replies ≡ [] }
    requires came { IsViewOf (P.next (R.standing run.old).program) (R.standing run.old).ranks rank (map (λ event. (event.now.call, event.now.reply)) own.now) }
    ensures { IfOk result (λ snapshot. snapshot ≡ snapshot_of (P.next (R.standing run.old).program) (P.variables (R.standing run.old).program) (R.standing run.old).ranks rank (map (λ event. (event.now.call, event.now.reply)) own.now) stand.now) }
{
    catch_up(run, own)?;
    let want = run.want()?;
    let variables = variables_at(alloc, run, &want)?;
    let last = last_reply(own)?;
    Ok(Snapshot {
        rank,
        number: own.len(),
        ahead: ahead_of(stand, want),
        last,
        variables,
    })
}

/// The variables that stand before what a rank wants.
fn variables_at<P: Program, R: RankRun<Of = P>>(
    alloc: Global,
    run: &R,
    want: &Want,
) -> Result<Variables, AllocError>
    requires asked { (R.standing run.now).asked ≡ true }
    requires says { Says want.now (P.next (R.standing run.now).program (R.standing run.now).ranks (R.standing run.now).rank (R.standing run.now).replies) }
    ensures { IfOk result (λ found. found ≡ variables_by (P.next (R.standing run.now).program (R.standing run.now).ranks (R.standing run.now).rank (R.standing run.now).replies) (P.variables (R.standing run.now).program (R.standing run.now).ranks (R.standing run.now).rank (R.standing run.now).replies)) }
{
    match want {
        Want::Ended => Ok(Variables::new(alloc)),
        Want::Ask(_) => run.variables(),
    }
}

/// What is ahead of a rank that wants this.
fn ahead_of(stand: &Stand, want: Want) -> Ahead
    ensures { (next : Option Call) → Says want next → result ≡ ahead_of stand.now next }
{
    match want {
        Want::Ended => Ahead::Ended,
        Want::Ask(call) => ahead_at(stand, call),
    }
}

/// What is ahead of a rank that has a next call.
fn ahead_at(stand: &Stand, call: Call) -> Ahead
    ensures { result ≡ ahead_of stand.now (Some call) }
{
    match stand {
        Stand::LogEnded => Ahead::LogEnded,
        Stand::Ended | Stand::AtBreak { .. } | Stand::Diverged(_) | Stand::Starved(_) => {
            Ahead::Calls(call)
        }
    }
}

/// A copy of the last reply of some events.
fn last_reply(own: &[&Event]) -> Result<Option<Reply>, AllocError>
    ensures { IfOk result (λ last. last ≡ last_reply_in (replies_in (map (λ event. (event.now.call, event.now.reply)) own.now))) }
{
    match own.last() {
        None => Ok(None),
        Some(event) => Ok(Some(reply::copy_of(&event.reply)?)),
    }
}
