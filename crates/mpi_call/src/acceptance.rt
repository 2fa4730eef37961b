//! Which messages a receive or a probe accepts.
ghost use Rattle.std.specs.Prelude.{◌≡◌};
ghost use Rattle.mpi_call.specs.Acceptance.{accepts, source_agrees, tag_agrees};

use crate::call::{Call, Comm, Source, Tag};

/// Whether a receive or a probe from `source` may take a message of `sender`. Takes no memory.
pub fn is_source_of(source: &Source, sender: u8) -> bool
    ensures { result ≡ source_agrees source.now sender }
{
    match source {
        Source::Any => true,
        Source::From(rank) => *rank == sender,
        Source::Null => false,
    }
}

/// Whether a receive or a probe with `tag` may take a message with the tag `sent`. Takes no memory.
pub fn is_tag_of(tag: &Tag, sent: u32) -> bool
    ensures { result ≡ tag_agrees tag.now sent }
{
    match tag {
        Tag::Any => true,
        Tag::Is(wanted) => *wanted == sent,
    }
}

/// Whether a Post or Peek of `rank`, with this communicator, source and tag, accepts the call `send` of `sender`; a call
/// that is no Send is never accepted. Takes no memory.
pub fn accepts(rank: u8, comm: Comm, source: &Source, tag: &Tag, sender: u8, send: &Call) -> bool
    ensures { result ≡ accepts rank comm source.now tag.now sender send.now }
{
    match send {
        Call::Send {
            comm: sent_on,
            dest,
            tag: sent,
            ints: _,
            sync: _,
        } => *sent_on == comm
            && *dest == rank
            && is_source_of(source, sender)
            && is_tag_of(tag, *sent),
        _ => false,
    }
}
