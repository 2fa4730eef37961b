//! What is asked of a replay.
use msg_races::names::Name;

/// What is asked of a replay. A text `T` is a list of bytes in definitions, and a borrowed one in code.
#[derive(Clone, Copy)]
pub enum ReplayView<T> {
    /// The changes of a variable of a rank.
    Changes { rank: u8, name: T },
    /// Where each rank stands.
    Snapshots,
    /// Where a message was sent, found and taken.
    Places(Name),
}
