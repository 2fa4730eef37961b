//! How far the ranks reach that a collective's result came from.
ghost use Rattle.std.specs.Prelude.{◌≡◌, ◌&&◌, ℕ, if◌then◌else◌, max, min, true};
ghost use Rattle.mpi_call.specs.Members.{is_member};
ghost use Rattle.mpi_call.specs.Needs.{IsEnterOf, needs};
ghost use Rattle.run_model.specs.Forms.{IsInOrder};
ghost use Rattle.run_model.specs.Views.{View, start_at};
ghost use Rattle.srr_entry.specs.Entries.{all_within, is_inner};
ghost use Rattle.srr_entry.specs.Known.{IsKnownOf};
ghost use Rattle.plan_advice.specs.inside.Pieces.{HasRank, block_ranks, is_within};

use mpi_call::call::Call;
use mpi_call::lists::Ranks;
use mpi_call::needs::needs;
use srr_entry::known::Known;

/// A rank of a run on so many ranks.
#[derive(Clone, Copy)]
pub struct RunRank {
    pub ranks: u8,
    pub rank: u8,
}

/// The least and the greatest of some ranks.
#[derive(Clone, Copy)]
pub struct RankBounds {
    pub least: u8,
    pub greatest: u8,
}

fn lesser(a: u8, b: u8) -> u8
    ensures { result ≡ min a b }
{
    if b < a { b } else { a }
}

fn greater(a: u8, b: u8) -> u8
    ensures { result ≡ max a b }
{
    if a < b { b } else { a }
}

/// The span with a member more, where the rank's Enter needs it.
fn with_needed(span: RankBounds, call: &Call, members: &Ranks, rank: u8, member: u8) -> RankBounds
    requires form { IsEnterOf call.now members.now rank }
    requires rank { is_member members.now rank ≡ true }
    requires member { is_member members.now member ≡ true }
    ensures { (begin end : ℕ) → is_within begin end result.least result.greatest
        ≡ (if needs call.now members.now rank member
        then is_within begin end span.least span.greatest && is_within begin end member member
        else is_within begin end span.least span.greatest) }
{
    if !needs(call, members, rank, member) {
        return span;
    }
    RankBounds {
        least: lesser(span.least, member),
        greatest: greater(span.greatest, member),
    }
}

/// The span of a rank and the members that its Enter needs.
fn needed_span(call: &Call, members: &Ranks, rank: u8) -> RankBounds
    requires form { IsEnterOf call.now members.now rank }
    requires member { is_member members.now rank ≡ true }
    ensures { (begin end : ℕ) → HasRank rank begin end
        → all_within (block_ranks begin end) (needs call.now members.now rank) members.now ≡ is_within begin end result.least result.greatest }
{
    let mut span = RankBounds {
        least: rank,
        greatest: rank,
    };
    let mut rest = members.as_slice();
    while let [member, after @ ..] = rest {
        span = with_needed(span, call, members, rank, *member);
        rest = after;
    }
    span
}

/// The span of the rank and of those that its start's result came from. A start that was never made has the span of no block.
pub fn span_of(owner: &RunRank, known: &Known<'_>, start: u32) -> RankBounds
    requires { (own : View) × IsKnownOf owner.now.ranks own known.now × IsInOrder owner.now.ranks owner.now.rank own }
    ensures { (own : View) (begin end : ℕ) → IsKnownOf owner.now.ranks own known.now → HasRank owner.now.rank begin end
        → is_inner owner.now.ranks (block_ranks begin end) owner.now.rank own (start_at own start) ≡ is_within begin end result.least result.greatest }
{
    let alone = RankBounds {
        least: owner.rank,
        greatest: owner.rank,
    };
    match known.start(start) {
        Some(call) => match call {
            Call::Enter { comm, .. } => match known.members(*comm) {
                Some(members) => needed_span(call, members, owner.rank),
                None => alone,
            },
            _ => alone,
        },
        None => RankBounds {
            least: 0,
            greatest: u8::MAX,
        },
    }
}
