//! The locked value.

use turn_lock::Ledger;

/// What was added: pairs of a seat's number and which of its turns it was, from 0 on.
#[derive(Drop)]
pub struct Tally {
    pub entries: Vec<(u32, u32)>,
}

impl Ledger for Tally {
    type Entry = u32;

    type Frame = ();

    ghost entries = { λ t. t.entries.items };

    ghost frame = { λ t. tt };
}
