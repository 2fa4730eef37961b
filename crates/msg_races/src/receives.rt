//! Wildcard receives with the messages that could have reached them.
use crate::names::{Name, Names};
use listed::Listed;

/// A wildcard receive that was completed.
#[derive(Drop)]
pub struct WildcardReceive {
    pub rank: u8,
    pub start: u32,
    /// The Send whose message it took.
    pub took: Name,
    /// The other Sends that could have reached it, by sender and start number.
    pub others: Names,
}

/// Wildcard receives, which contracts see as a list.
pub type Receives = Listed<WildcardReceive>;
