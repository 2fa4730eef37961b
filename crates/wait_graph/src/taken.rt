//! The messages that a rank took last.
ghost use Rattle.std.specs.Map.{lookup};
ghost use Rattle.std.specs.Prelude.{◌≡◌, ◌&&◌, ◌==◌, ◌++◌, ◌∷◌, [], OnOk, ℕ, None, Some, if◌then◌else◌, length, option_map, slice_index};
ghost use Rattle.mpi_call.specs.Acceptance.{tag_agrees, tag_named};
ghost use Rattle.msg_races.specs.Ways.{named_tag};
ghost use Rattle.run_model.specs.Views.{View, start_at};
ghost use Rattle.srr_entry.specs.Known.{IsKnownOf};
ghost use Rattle.wait_graph.specs.declared.taken.InboundWay.{InboundWay as WaySpec};
ghost use Rattle.wait_graph.specs.Taken.{AreTaken, taken_after_got, taken_after_items, after_message, taken_after_reply, asked_of, same_inbound_way, taken_last};

use crate::message::Taken;
use indexmap::IndexMap;
use mpi_call::call::{Call, Comm, Tag};
use mpi_call::reply::{Got, Item, Reply};
use msg_races::names::Name;
use srr_entry::known::Known;
use std::alloc::{AllocError, Global};
use std::marker::Model;

/// How messages come to a rank: their sender and communicator, and their tag or any.
#[derive(Clone, Copy, Hash)]
pub struct InboundWay {
    pub sender: u8,
    pub comm: Comm,
    /// None: any.
    pub tag: Option<u32>,
}

impl PartialEq for InboundWay {
    ghost use Rattle.wait_graph.specs.Taken.{same_inbound_way};
    ghost use Rattle.std.proofs.Common.{rules};
    ghost use Rattle.std.specs.Cmp.Rules.{comparing};

    ghost eq = { same_inbound_way };

    ghost laws = { Prim.search (comparing, rules) depth 12 };

    fn eq(&self, other: &InboundWay) -> bool {
        self.sender == other.sender && self.comm == other.comm && self.tag == other.tag
    }
}

impl Eq for InboundWay {
    ghost use Rattle.std.proofs.Common.{rules};
    ghost use Rattle.std.specs.Cmp.Rules.{comparing};

    ghost laws = { Prim.search (comparing, rules) depth 12 };
}

/// The messages that a rank took last, by the ways that they came.
#[derive(Drop)]
pub struct LastTaken {
    values: IndexMap<InboundWay, Taken>,
}

impl Model for LastTaken {
    ghost use Rattle.std.specs.Prelude.{List};
    ghost use Rattle.wait_graph.specs.declared.message.Taken.{Taken};
    ghost use Rattle.wait_graph.specs.declared.taken.InboundWay.{InboundWay};

    ghost Value = { List (InboundWay × Taken) };

    ghost view = { λ s. s.values.entries };
}

impl LastTaken {
    /// No messages.
    pub fn new(alloc: Global) -> Self
        ensures { result ≡ [] }
    {
        LastTaken {
            values: IndexMap::new(alloc),
        }
    }

    /// The message of a sender on a communicator, with a tag, that the rank took last.
    pub fn get(&self, comm: Comm, tag: &Tag, sender: u8) -> Option<Taken>
        ensures { (own : View) → AreTaken own self.now → result ≡ taken_last own comm tag.now sender }
    {
        self.last(&InboundWay {
            sender,
            comm,
            tag: tag_named(tag),
        })
    }

    fn last(&self, way: &InboundWay) -> Option<Taken>
        ensures { result ≡ lookup (same_inbound_way way.now) self.now }
    {
        self.values.get(way).copied()
    }

    /// Adds a message for any tag.
    fn add_any(&mut self, comm: Comm, sender: u8, taken: Taken) -> Result<(), AllocError>
        ensures { OnOk result ((way : WaySpec) → lookup (same_inbound_way way) self.new ≡ (if same_inbound_way (record { sender = sender; comm = comm; tag = None }) way then Some taken else lookup (same_inbound_way way) self.old)) }
    {
        let way = InboundWay {
            sender,
            comm,
            tag: None,
        };
        self.values.insert(way, taken)?;
        Ok(())
    }

    /// Adds a message for its tag.
    fn add_tagged(
        &mut self,
        comm: Comm,
        sender: u8,
        tag: u32,
        taken: Taken,
    ) -> Result<(), AllocError>
        ensures { OnOk result ((way : WaySpec) → lookup (same_inbound_way way) self.new ≡ (if same_inbound_way (record { sender = sender; comm = comm; tag = Some tag }) way then Some taken else lookup (same_inbound_way way) self.old)) }
    {
        let way = InboundWay {
            sender,
            comm,
            tag: Some(tag),
        };
        self.values.insert(way, taken)?;
        Ok(())
    }

    /// Adds a message for its tag and for any.
    fn add_message(
        &mut self,
        comm: Comm,
        sender: u8,
        tag: u32,
        taken: Taken,
    ) -> Result<(), AllocError>
        ensures { OnOk result ((way : WaySpec) → lookup (same_inbound_way way) self.new ≡ (if (comm == way.comm) && ((sender == way.sender) && tag_agrees (named_tag way.tag) tag) then Some taken else lookup (same_inbound_way way) self.old)) }
    {
        self.add_any(comm, sender, taken)?;
        self.add_tagged(comm, sender, tag, taken)
    }

    /// Adds what a receive on a communicator gave at a call.
    fn add_received(&mut self, number: u32, comm: Comm, got: &Got) -> Result<(), AllocError>
        ensures { OnOk result ((way : WaySpec) → lookup (same_inbound_way way) self.new ≡ after_message (asked_of way.comm (named_tag way.tag) way.sender) number comm got.now (lookup (same_inbound_way way) self.old)) }
    {
        match got {
            Got::Message {
                source,
                start,
                tag,
                ..
            } => {
                let name = Name {
                    rank: *source,
                    start: *start,
                };
                self.add_message(comm, *source, *tag, Taken { name, call: number })
            }
            _ => Ok(()),
        }
    }

    /// Adds what a start with this call gave.
    fn add_by_call(&mut self, number: u32, call: &Call, got: &Got) -> Result<(), AllocError>
        ensures { OnOk result ((way : WaySpec) → lookup (same_inbound_way way) self.new ≡ taken_after_got (asked_of way.comm (named_tag way.tag) way.sender) number (Some call.now) got.now (lookup (same_inbound_way way) self.old)) }
    {
        match call {
            Call::Post { comm, .. } => self.add_received(number, *comm, got),
            _ => Ok(()),
        }
    }

    /// Adds what a start gave at a call.
    fn add_got(&mut self, number: u32, start: Option<&Call>, got: &Got) -> Result<(), AllocError>
        ensures { OnOk result ((way : WaySpec) → lookup (same_inbound_way way) self.new ≡ taken_after_got (asked_of way.comm (named_tag way.tag) way.sender) number (option_map (λ call. call.now) start.entry) got.now (lookup (same_inbound_way way) self.old)) }
    {
        match start {
            Some(call) => self.add_by_call(number, call, got),
            None => Ok(()),
        }
    }

    /// Adds what one of these starts gave at a call.
    fn add_item(
        &mut self,
        known: &Known,
        number: u32,
        starts: &[u32],
        item: &Item,
    ) -> Result<(), AllocError>
        ensures { OnOk result ((n : ℕ) (own : View) → IsKnownOf n own known.now → (way : WaySpec) → lookup (same_inbound_way way) self.new ≡ taken_after_got (asked_of way.comm (named_tag way.tag) way.sender) number (start_at own (slice_index starts.now item.now.index)) item.now.got (lookup (same_inbound_way way) self.old)) }
    {
        let start = listed_start(starts, item.index);
        self.add_got(number, known.start(start), &item.got)
    }

    /// Adds what a rank's starts gave at a call.
    fn add_items(
        &mut self,
        known: &Known,
        number: u32,
        starts: &[u32],
        items: &[Item],
    ) -> Result<(), AllocError>
        ensures { OnOk result ((n : ℕ) (own : View) → IsKnownOf n own known.now → (way : WaySpec) → lookup (same_inbound_way way) self.new ≡ taken_after_items (asked_of way.comm (named_tag way.tag) way.sender) number own starts.now items.now (lookup (same_inbound_way way) self.old)) }
    {
        let mut rest = items;
        while let [item, after @ ..] = rest {
            self.add_item(known, number, starts, item)?;
            rest = after;
        }
        Ok(())
    }

    /// Adds what the reply to a call gave.
    fn add_reply(
        &mut self,
        known: &Known,
        number: u32,
        call: &Call,
        reply: &Reply,
    ) -> Result<(), AllocError>
        ensures { OnOk result ((n : ℕ) (own : View) → IsKnownOf n own known.now → (way : WaySpec) → lookup (same_inbound_way way) self.new ≡ taken_after_reply (asked_of way.comm (named_tag way.tag) way.sender) number own call.now reply.now (lookup (same_inbound_way way) self.old)) }
    {
        match reply {
            Reply::Took(items) => match call {
                Call::Take { starts, .. } => {
                    self.add_items(known, number, starts.as_slice(), items.as_slice())
                }
                _ => self.add_items(known, number, &[], items.as_slice()),
            },
            _ => Ok(()),
        }
    }

    /// Adds what the rank's next call took, of whose starts and communicators this is known before it.
    pub fn note(
        &mut self,
        known: &Known,
        number: u32,
        call: &Call,
        reply: &Reply,
    ) -> Result<(), AllocError>
        ensures { OnOk result ((n : ℕ) (own : View) → IsKnownOf n own known.now → number ≡ length own → AreTaken own self.old → AreTaken (own ++ (call.now, reply.now) ∷ []) self.new) }
    {
        self.add_reply(known, number, call, reply)
    }
}

/// The start with an index in a list. An index past the list reads 0.
fn listed_start(starts: &[u32], index: u32) -> u32
    ensures { result ≡ slice_index starts.now index }
{
    match starts.get(index as usize) {
        Some(start) => *start,
        None => 0,
    }
}

/// The tag that a receive names, None for any.
fn tag_named(tag: &Tag) -> Option<u32>
    ensures { result ≡ tag_named tag.now }
{
    match tag {
        Tag::Any => None,
        Tag::Is(tag) => Some(*tag),
    }
}
