//! What the locked value tells of itself.
ghost use Rattle.std.specs.Prelude.{ℕ, List};

/// A value that grows by entries, each under the number of a seat, over a frame that never changes.
///
/// It is `Drop` since a lock that could not be made lets the value go.
pub trait Ledger: Drop {
    /// What an entry holds beside the number of its seat.
    type Entry;

    /// What stays the same while the lock lives.
    type Frame;

    ghost entries: { Self → List (ℕ × Self.Entry) };

    ghost frame: { Self → Self.Frame };
}
