//! Looking starts up in what a rank has seen.
ghost use Rattle.std.specs.Prelude.{◌≡◌, ◌∷◌, [], option_map};
ghost use Rattle.mpi_call.specs.Members.{is_member};
ghost use Rattle.run_model.specs.Views.{is_start, items_taken, start_at, taken_of};

use mpi_call::call::Call;
use mpi_call::reply::{Item, Reply};

/// Whether a call with this reply is a start.
pub fn is_start(call: &Call, reply: &Reply) -> bool
    ensures { result ≡ is_start (call.now, reply.now) }
{
    matches!(
        call,
        Call::Send { .. } | Call::Post { .. } | Call::Enter { .. }
    ) && matches!(reply, Reply::Done)
}

/// The start with this number.
pub fn find_start(view: &[(Call, Reply)], number: u32) -> Option<&Call>
    ensures { option_map (λ found. found.now) result ≡ start_at view.now number }
{
    let mut left = number;
    let mut rest = view;
    while let [seen, after @ ..] = rest {
        if is_start(&seen.0, &seen.1) {
            if left == 0 {
                return Some(&seen.0);
            }
            left -= 1;
        }
        rest = after;
    }
    None
}

/// Whether a start is among those that these items completed. An index past the list reads 0.
fn is_completed(starts: &[u32], items: &[Item], number: u32) -> bool
    ensures { result ≡ is_member (items_taken starts.now items.now) number }
{
    let mut rest = items;
    while let [item, after @ ..] = rest {
        let start = starts.get(item.index as usize).copied().unwrap_or(0);
        if start == number {
            return true;
        }
        rest = after;
    }
    false
}

/// Whether a call and its reply completed the start with this number.
fn is_taken_by(call: &Call, reply: &Reply, number: u32) -> bool
    ensures { result ≡ is_member (taken_of ((call.now, reply.now) ∷ [])) number }
{
    match reply {
        Reply::Took(items) => match call {
            Call::Take { starts, mode: _ } => is_completed(
                starts.as_slice(),
                items.as_slice(),
                number,
            ),
            _ => is_completed(&[], items.as_slice(), number),
        },
        _ => false,
    }
}

/// Whether the start with this number was taken.
pub fn is_taken(view: &[(Call, Reply)], number: u32) -> bool
    ensures { result ≡ is_member (taken_of view.now) number }
{
    let mut rest = view;
    while let [seen, after @ ..] = rest {
        if is_taken_by(&seen.0, &seen.1, number) {
            return true;
        }
        rest = after;
    }
    false
}
