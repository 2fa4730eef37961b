//! The kinds of records, marks and halts, by their bytes.
ghost use Rattle.std.specs.Prelude.{◌≡◌};
ghost use Rattle.srr_log2.specs.EntryBytes.{is_not_yet};
ghost use Rattle.srr_log2.specs.Kinds.{halt_kind_of, mark_kind_of, record_kind_of};

use srr_entry::entry::Entry;

/// What a record stands for.
#[derive(Clone, Copy, Drop)]
pub enum RecordKind {
    Sent,
    Posted,
    Entered,
    Ended,
    Took,
    NotYet,
    PeekedInside,
    PeekedOutside,
    Stopped,
}

/// What is kept of a completed start.
#[derive(Clone, Copy, Drop)]
pub enum MarkKind {
    Sent,
    Nothing,
    Inside,
    Outside,
    Inner,
    Outer,
    Made,
    MadeOutside,
}

/// Why a run was stopped.
#[derive(Clone, Copy, Drop)]
pub enum HaltKind {
    Aborted,
    Trapped,
    Truncated,
    Mismatched,
    BadRequest,
    Limit,
    Stuck,
}

pub fn record_kind(number: u8) -> Option<RecordKind>
    ensures { result ≡ record_kind_of number }
{
    match number {
        1 => Some(RecordKind::Sent),
        2 => Some(RecordKind::Posted),
        3 => Some(RecordKind::Entered),
        4 => Some(RecordKind::Ended),
        5 => Some(RecordKind::Took),
        6 => Some(RecordKind::NotYet),
        7 => Some(RecordKind::PeekedInside),
        8 => Some(RecordKind::PeekedOutside),
        9 => Some(RecordKind::Stopped),
        _ => None,
    }
}

pub fn mark_kind(number: u8) -> Option<MarkKind>
    ensures { result ≡ mark_kind_of number }
{
    match number {
        1 => Some(MarkKind::Sent),
        2 => Some(MarkKind::Nothing),
        3 => Some(MarkKind::Inside),
        4 => Some(MarkKind::Outside),
        5 => Some(MarkKind::Inner),
        6 => Some(MarkKind::Outer),
        7 => Some(MarkKind::Made),
        8 => Some(MarkKind::MadeOutside),
        _ => None,
    }
}

pub fn halt_kind(number: u8) -> Option<HaltKind>
    ensures { result ≡ halt_kind_of number }
{
    match number {
        1 => Some(HaltKind::Aborted),
        2 => Some(HaltKind::Trapped),
        3 => Some(HaltKind::Truncated),
        4 => Some(HaltKind::Mismatched),
        5 => Some(HaltKind::BadRequest),
        6 => Some(HaltKind::Limit),
        7 => Some(HaltKind::Stuck),
        _ => None,
    }
}

/// A test or a probe that found nothing.
pub fn is_not_yet(entry: &Entry) -> bool
    ensures { result ≡ is_not_yet entry.now }
{
    match entry {
        Entry::NotYet => true,
        _ => false,
    }
}
