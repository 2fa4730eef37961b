//! Which replies have the shape of a call.
ghost use Rattle.std.specs.Prelude.{◌≡◌, ◌&&◌, ◌==◌, ◌*◌, ℕ, ℤ, List, Some, not, length, map, option_map};
ghost use Rattle.mpi_call.specs.Calls.{is_enter, makes};
ghost use Rattle.std.specs.List.{list_all};
ghost use Rattle.mpi_call.specs.declared.reply.Got.TheVariants.{Nothing, Message, Joined, Made};
ghost use Rattle.mpi_call.specs.declared.reply.Item.{Item};
ghost use Rattle.mpi_call.specs.Collectives.{is_distinct, is_member, result_length};
ghost use Rattle.run_model.specs.Fits.{fit_of};
ghost use Rattle.run_model.specs.Lists.{are_below};
ghost use Rattle.run_model.specs.Shape.{can_take, got_fits, gots_fit, halt_fits, has_count, has_shape, is_abort_of, is_test, is_trap_of, lists_start, rise_within};
ghost use Rattle.run_model.specs.Views.{View};

use crate::communicators::{are_below, are_distinct, are_the_members, count_members};
use crate::lists::View;
use crate::starts::{find_start, is_taken};
use mpi_call::acceptance::{is_source_of, is_tag_of};
use mpi_call::call::{Call, Comm, Fault, Halt, Kind, Source, TakeMode};
use mpi_call::members::is_member;
use mpi_call::needs::{UNDEFINED, colour_in, is_root};
use mpi_call::reply::{Got, Item, Reply};

/// Whether a reply has the shape of a call.
#[derive(Clone, Copy, Debug, PartialEq, Eq)]
pub enum Fit {
    Fits,
    Misfits,
}

/// Whether the reply has the shape of rank `rank`'s call, after its earlier calls and replies. Takes no memory.
pub fn shape(n: u8, rank: u8, view: &View, call: &Call, reply: &Reply) -> Fit
    ensures { result ≡ fit_of (has_shape n rank view.now call.now reply.now) }
{
    if has_shape(n, rank, view.as_slice(), call, reply) {
        Fit::Fits
    } else {
        Fit::Misfits
    }
}

fn has_shape(n: u8, rank: u8, view: &[(Call, Reply)], call: &Call, reply: &Reply) -> bool
    ensures { result ≡ has_shape n rank view.now call.now reply.now }
{
    match reply {
        Reply::Stopped(halt) => halt_fits(rank, call, halt),
        Reply::Done => matches!(
            call,
            Call::Send { .. } | Call::Post { .. } | Call::Enter { .. } | Call::End
        ),
        Reply::NotYet => match call {
            Call::Take { starts: _, mode } => is_test(*mode),
            Call::Peek { wait, .. } => !*wait,
            _ => false,
        },
        Reply::Peeked { source, tag, .. } => match call {
            Call::Peek {
                source: from,
                tag: wanted,
                ..
            } => is_source_of(from, *source) && is_tag_of(wanted, *tag),
            _ => false,
        },
        Reply::Took(items) => match call {
            Call::Take { starts, mode } => {
                took_fits(n, rank, view, starts.as_slice(), *mode, items.as_slice())
            }
            _ => false,
        },
    }
}

/// Whether completed starts fit a Take: as many as the mode asks, indices that rise, starts that were made and not taken,
/// and what each gives.
fn took_fits(
    n: u8,
    rank: u8,
    view: &[(Call, Reply)],
    starts: &[u32],
    mode: TakeMode,
    items: &[Item],
) -> bool
    ensures { result ≡ (has_count mode (length starts.now) (length items.now) && (rise_within 0 (length starts.now) (map (λ (item : Item). item.index) items.now) && (list_all (λ k. can_take view.now k) starts.now && gots_fit n rank view.now starts.now items.now))) }
{
    has_count(mode, starts.len(), items.len())
        && do_rise(starts.len(), items)
        && all_open(view, starts)
        && gots_fit(n, rank, view, starts, items)
}

pub fn is_test(mode: TakeMode) -> bool
    ensures { result ≡ is_test mode }
{
    matches!(
        mode,
        TakeMode::TestAll | TakeMode::TestAny | TakeMode::TestSeveral
    )
}

pub fn has_count(mode: TakeMode, starts: usize, items: usize) -> bool
    ensures { result ≡ has_count mode starts items }
{
    match mode {
        TakeMode::All | TakeMode::TestAll => items == starts,
        TakeMode::Any | TakeMode::TestAny => items == 1,
        TakeMode::Several | TakeMode::TestSeveral => 0 < items,
    }
}

/// Whether the indices rise and stay below a length.
fn do_rise(len: usize, items: &[Item]) -> bool
    ensures { result ≡ rise_within 0 len (map (λ (item : Item). item.index) items.now) }
{
    let mut low = 0;
    let mut rest = items;
    while let [item, after @ ..] = rest {
        let index = item.index as usize;
        if index < low || index >= len {
            return false;
        }
        low = index + 1;
        rest = after;
    }
    true
}

/// Whether each of these starts was made and not taken.
fn all_open(view: &[(Call, Reply)], starts: &[u32]) -> bool
    ensures { result ≡ list_all (λ k. can_take view.now k) starts.now }
{
    let mut rest = starts;
    while let [start, after @ ..] = rest {
        if !can_take(view, *start) {
            return false;
        }
        rest = after;
    }
    true
}

fn can_take(view: &[(Call, Reply)], start: u32) -> bool
    ensures { result ≡ can_take view.now start }
{
    find_start(view, start).is_some() && !is_taken(view, start)
}

/// Whether each item gives what its start may give.
fn gots_fit(n: u8, rank: u8, view: &[(Call, Reply)], starts: &[u32], items: &[Item]) -> bool
    ensures { result ≡ gots_fit n rank view.now starts.now items.now }
{
    let mut rest = items;
    while let [item, after @ ..] = rest {
        let start = starts.get(item.index as usize).copied().unwrap_or(0);
        if !got_fits(n, rank, view, find_start(view, start), &item.got) {
            return false;
        }
        rest = after;
    }
    true
}

/// Whether a halt fits a call: one that names the rank itself only the call that makes it.
pub fn halt_fits(rank: u8, call: &Call, halt: &Halt) -> bool
    ensures { result ≡ halt_fits rank call.now halt.now }
{
    match halt {
        Halt::Aborted { rank: named, code } => *named != rank || is_abort_of(*code, call),
        Halt::Trapped { rank: named, fault } => *named != rank || is_trap_of(*fault, call),
        Halt::Truncated { rank: named, start } => *named != rank || lists_start(*start, call),
        Halt::Mismatched { rank: named } => *named != rank || matches!(call, Call::Enter { .. }),
        Halt::BadRequest { rank: named, start } => *named != rank || lists_start(*start, call),
        Halt::Limit | Halt::Stuck => true,
    }
}

fn is_abort_of(code: i32, call: &Call) -> bool
    ensures { result ≡ is_abort_of code call.now }
{
    match call {
        Call::Abort { code: other } => code == *other,
        _ => false,
    }
}

fn is_trap_of(fault: Fault, call: &Call) -> bool
    ensures { result ≡ is_trap_of fault call.now }
{
    match call {
        Call::Trap { fault: other } => fault == *other,
        _ => false,
    }
}

fn lists_start(start: u32, call: &Call) -> bool
    ensures { result ≡ lists_start start call.now }
{
    match call {
        Call::Take { starts, mode: _ } => starts.as_slice().iter().any(|listed| *listed == start),
        _ => false,
    }
}

/// Whether a start may give this.
fn got_fits(n: u8, rank: u8, view: &[(Call, Reply)], start: Option<&Call>, got: &Got) -> bool
    ensures { result ≡ got_fits n rank view.now (option_map (λ call. call.now) start.entry) got.now }
{
    let Some(call) = start else {
        return false;
    };
    match got {
        Got::Sent => matches!(call, Call::Send { .. }),
        Got::Nothing => is_from_null(call),
        Got::Message {
            source,
            tag,
            ints,
            ..
        } => message_fits(call, *source, *tag, ints.as_slice().len()),
        Got::Joined { ints } => result_fits(n, rank, view, call, ints.as_slice().len()),
        Got::Made { comm, members } => made_fits(n, rank, view, call, *comm, members.as_slice()),
    }
}

/// Whether a call is a receive from the null process.
pub fn is_from_null(call: &Call) -> bool
    ensures { (n : ℕ) (view : View) (rank : ℕ) → result ≡ got_fits n rank view (Some call.now) Nothing }
{
    match call {
        Call::Post { source, .. } => match source {
            Source::Null => true,
            _ => false,
        },
        _ => false,
    }
}

fn message_fits(call: &Call, source: u8, tag: u32, len: usize) -> bool
    ensures { (n : ℕ) (view : View) (rank start : ℕ) (ints : List ℤ) → len ≡ length ints → result ≡ got_fits n rank view (Some call.now) (Message source start tag ints) }
{
    match call {
        Call::Post {
            source: from,
            tag: wanted,
            room,
            ..
        } => is_source_of(from, source) && is_tag_of(wanted, tag) && len <= *room as usize,
        _ => false,
    }
}

/// Whether a result has the length of that collective for this rank.
fn result_fits(n: u8, rank: u8, view: &[(Call, Reply)], call: &Call, len: usize) -> bool
    ensures { (ints : List ℤ) → len ≡ length ints → result ≡ got_fits n rank view.now (Some call.now) (Joined ints) }
{
    match call {
        Call::Enter { comm, .. } => is_result_length(
            call,
            count_members(n, view, *comm),
            rank,
            len,
        ),
        _ => false,
    }
}

/// Whether a collective that makes no communicator gives rank `rank` so many ints, on a communicator with so many members.
pub fn is_result_length(call: &Call, members: usize, rank: u8, len: usize) -> bool
    ensures { (ranks : List ℕ) → length ranks ≡ members
        → result ≡ (is_enter call.now && (not (makes call.now) && (len == result_length call.now ranks rank))) }
{
    match call {
        Call::Enter {
            kind,
            root,
            count,
            ..
        } => {
            let at_root = is_root(root, rank);
            let count = *count as usize;
            match kind {
                Kind::Barrier => len == 0,
                Kind::Bcast | Kind::Allreduce | Kind::Scatter | Kind::Scan => len == count,
                Kind::Reduce => len == if at_root { count } else { 0 },
                Kind::Gather => {
                    if at_root {
                        is_product(len, members, count)
                    } else {
                        len == 0
                    }
                }
                Kind::Allgather | Kind::Alltoall => is_product(len, members, count),
                Kind::Split | Kind::Dup => false,
            }
        }
        _ => false,
    }
}

fn is_product(len: usize, members: usize, count: usize) -> bool
    ensures { result ≡ (len == members * count) }
{
    match members.checked_mul(count) {
        Some(product) => len == product,
        None => false,
    }
}

/// Whether a new communicator is one that this Enter may make for this rank.
fn made_fits(
    n: u8,
    rank: u8,
    view: &[(Call, Reply)],
    call: &Call,
    comm: Comm,
    members: &[u8],
) -> bool
    ensures { result ≡ got_fits n rank view.now (Some call.now) (Made comm members.now) }
{
    match call {
        Call::Enter {
            comm: old,
            kind,
            ints,
            ..
        } => match kind {
            Kind::Split => {
                let uncoloured = colour_in(ints) == UNDEFINED;
                if members.is_empty() {
                    uncoloured && comm == 0
                } else {
                    !uncoloured && comm != 0 && are_members(n, rank, members)
                }
            }
            Kind::Dup => {
                !members.is_empty()
                    && comm != 0
                    && are_members(n, rank, members)
                    && are_the_members(n, view, *old, members)
            }
            _ => false,
        },
        _ => false,
    }
}

/// Whether these may be the members of a communicator of this rank.
pub fn are_members(n: u8, rank: u8, members: &[u8]) -> bool
    ensures { result ≡ (are_below n members.now && (is_distinct members.now && is_member members.now rank)) }
{
    are_below(n, members) && are_distinct(members) && is_member(members, rank)
}
