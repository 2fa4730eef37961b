//! Members of a communicator.
ghost use Rattle.std.specs.Prelude.{◌≡◌, ◌+◌, ◌<◌, ◌^◌};
ghost use Rattle.mpi_call.specs.Members.{is_member, place_of};

/// A member's rank in the communicator, or the number of members where it is none. Takes no memory.
pub fn place_of(members: &[u8], rank: u8) -> usize
    ensures value { result ≡ place_of members.now rank }
    ensures fits { result + 1 < 2 ^ 64 }
{
    for (place, member) in members.iter().enumerate() {
        if *member == rank {
            return place;
        }
    }
    members.len()
}

/// Whether a rank is among these. Takes no memory.
pub fn is_member(members: &[u8], rank: u8) -> bool
    ensures { result ≡ is_member members.now rank }
{
    members.iter().any(|member| *member == rank)
}
