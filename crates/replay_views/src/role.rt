//! What a call of a rank does with a message.
ghost use Rattle.std.specs.Prelude.{◌≡◌};
ghost use Rattle.std.specs.List.{list_any};
ghost use Rattle.mpi_call.specs.Calls.{is_send};
ghost use Rattle.replay_views.specs.Places.{has_message, role_of, sent_role};

use mpi_call::call::Call;
use mpi_call::reply::{Got, Item, Reply};
use msg_races::names::Name;

/// What a call does with a message.
#[derive(Clone, Copy, Debug, PartialEq, Eq)]
pub enum Role {
    /// It sends it.
    Sent,
    /// It finds it, and leaves it there.
    Found,
    /// It takes it.
    Took,
}

/// What a rank's call with its reply does with the message of a name, if anything; `made` tells how many starts the rank made
/// before.
pub(crate) fn role_of(name: Name, rank: u8, made: usize, call: &Call, reply: &Reply) -> Option<Role>
    ensures { result ≡ role_of name rank made (call.now, reply.now) }
{
    match reply {
        Reply::Done => sent_role(name, rank, made, call),
        Reply::Peeked { source, start, .. } => {
            if *source == name.rank && *start == name.start {
                Some(Role::Found)
            } else {
                None
            }
        }
        Reply::Took(items) => {
            if have_message(name, items.as_slice()) {
                Some(Role::Took)
            } else {
                None
            }
        }
        _ => None,
    }
}

fn sent_role(name: Name, rank: u8, made: usize, call: &Call) -> Option<Role>
    ensures { result ≡ sent_role name rank made call.now }
{
    if is_send(call) && rank == name.rank && made == name.start as usize {
        Some(Role::Sent)
    } else {
        None
    }
}

fn is_send(call: &Call) -> bool
    ensures { result ≡ is_send call.now }
{
    matches!(call, Call::Send { .. })
}

/// Whether some of these items are the message of a name.
fn have_message(name: Name, items: &[Item]) -> bool
    ensures { result ≡ list_any (has_message name) items.now }
{
    items.iter().any(|item| has_message(name, item))
}

fn has_message(name: Name, item: &Item) -> bool
    ensures { result ≡ has_message name item.now }
{
    match &item.got {
        Got::Message { source, start, .. } => *source == name.rank && *start == name.start,
        _ => false,
    }
}
