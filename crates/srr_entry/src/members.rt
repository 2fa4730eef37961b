//! Whether the ranks that a collective needs are in a group.
ghost use Rattle.std.specs.Prelude.{◌≡◌, true};
ghost use Rattle.mpi_call.specs.Collectives.{IsEnterOf, is_member, needs};
ghost use Rattle.srr_entry.specs.Entries.{all_within};

use mpi_call::call::Call;
use mpi_call::lists::Ranks;
use mpi_call::members::is_member;
use mpi_call::needs::needs;

/// Whether all members that the rank's Enter needs are in the group.
pub fn all_within(group: &[u8], call: &Call, members: &Ranks, rank: u8) -> bool
    requires form { IsEnterOf call.now members.now rank }
    requires member { is_member members.now rank ≡ true }
    ensures { result ≡ all_within group.now (needs call.now members.now rank) members.now }
{
    let mut rest = members.as_slice();
    while let [member, after @ ..] = rest {
        if needs(call, members, rank, *member) && !is_member(group, *member) {
            return false;
        }
        rest = after;
    }
    true
}
