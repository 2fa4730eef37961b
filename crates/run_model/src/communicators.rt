//! The communicators that a rank knows, and lists of members.
ghost use Rattle.std.specs.Prelude.{◌≡◌, None, length, option_map};
ghost use Rattle.mpi_call.specs.Members.{is_distinct};
ghost use Rattle.run_model.specs.Communicators.{known_after, learned, made_in_items, members_for_rank};
ghost use Rattle.run_model.specs.Lists.{are_below, same_ranks, world};

use mpi_call::call::{Call, Comm};
use mpi_call::lists::Ranks;
use mpi_call::members::is_member;
use mpi_call::reply::{Got, Item, Reply};

/// How many members a communicator has for a rank that has seen this; an unknown one has none.
pub fn count_members(n: u8, view: &[(Call, Reply)], comm: Comm) -> usize
    ensures { result ≡ length (members_for_rank n view.now comm) }
{
    if comm == 0 {
        return n as usize;
    }
    match find_made(view, comm) {
        Some(members) => members.as_slice().len(),
        None => 0,
    }
}

/// Whether these are a communicator's members, in order, for a rank that has seen this.
pub fn are_the_members(n: u8, view: &[(Call, Reply)], comm: Comm, members: &[u8]) -> bool
    ensures { result ≡ same_ranks (members_for_rank n view.now comm) members.now }
{
    if comm == 0 {
        return are_all(n, members);
    }
    match find_made(view, comm) {
        Some(known) => are_same(known.as_slice(), members),
        None => members.is_empty(),
    }
}

/// Whether two lists are the same.
pub fn are_same(known: &[u8], members: &[u8]) -> bool
    ensures { result ≡ same_ranks known.now members.now }
{
    known == members
}

/// Whether these are all n ranks, rising.
fn are_all(n: u8, members: &[u8]) -> bool
    ensures { result ≡ same_ranks (world n 0) members.now }
{
    let mut rank = 0;
    let mut rest = members;
    while let [member, after @ ..] = rest {
        if rank == n || *member != rank {
            return false;
        }
        rank += 1;
        rest = after;
    }
    rank == n
}

/// The members that the first reply with this number gave.
fn find_made(view: &[(Call, Reply)], comm: Comm) -> Option<&Ranks>
    ensures { option_map (λ members. members.now) result ≡ known_after comm None view.now }
{
    let mut rest = view;
    while let [seen, after @ ..] = rest {
        if let Some(members) = made_in(&seen.1, comm) {
            return Some(members);
        }
        rest = after;
    }
    None
}

/// The members that a reply gives for this number.
pub fn made_in(reply: &Reply, comm: Comm) -> Option<&Ranks>
    ensures { option_map (λ members. members.now) result ≡ learned comm None reply.now }
{
    match reply {
        Reply::Took(items) => made_in_items(items.as_slice(), comm),
        _ => None,
    }
}

fn made_in_items(items: &[Item], comm: Comm) -> Option<&Ranks>
    ensures { option_map (λ members. members.now) result ≡ made_in_items comm items.now }
{
    let mut rest = items;
    while let [item, after @ ..] = rest {
        if let Got::Made {
            comm: number,
            members,
        } = &item.got
        {
            if *number == comm {
                return Some(members);
            }
        }
        rest = after;
    }
    None
}

/// Whether all of these are below n.
pub fn are_below(n: u8, members: &[u8]) -> bool
    ensures { result ≡ are_below n members.now }
{
    let mut rest = members;
    while let [member, after @ ..] = rest {
        if *member >= n {
            return false;
        }
        rest = after;
    }
    true
}

/// Whether none stands twice.
pub fn are_distinct(members: &[u8]) -> bool
    ensures { result ≡ is_distinct members.now }
{
    let mut rest = members;
    while let [member, after @ ..] = rest {
        if is_member(after, *member) {
            return false;
        }
        rest = after;
    }
    true
}
