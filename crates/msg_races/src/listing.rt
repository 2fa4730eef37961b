//! The receives that are listed.
ghost use Rattle.std.specs.Prelude.{◌≡◌, ◌<◌, ◌≤◌, ◌++◌, ◌∷◌, [], Err, OnOk};
ghost use Rattle.msg_races.specs.declared.fault.RaceFault.TheVariants.{TooMany};
ghost use Rattle.msg_races.specs.Names.{count_racing, most_racing};

use crate::fault::{MOST_OTHERS, RaceFault};
use crate::receives::{Receives, WildcardReceive};
use std::alloc::Global;
use std::marker::Model;

/// Receives with at most `MOST_OTHERS` others together, which contracts see as a list.
#[derive(Drop)]
pub struct Listing {
    receives: Receives,
    /// How many others may be listed still.
    left: u32,
}

impl Model for Listing {
    ghost use Rattle.std.specs.Prelude.{◌≡◌, ◌+◌, List};
    ghost use Rattle.msg_races.specs.declared.receives.WildcardReceive.{WildcardReceive};
    ghost use Rattle.msg_races.specs.Names.{count_racing, most_racing};

    ghost Value = { List WildcardReceive };

    ghost view = { λ s. s.receives };

    ghost invariant = { λ s. count_racing s.receives + s.left ≡ most_racing };
}

impl Listing {
    /// No receives.
    pub fn new(alloc: Global) -> Self
        ensures { result ≡ [] }
    {
        Listing {
            receives: Receives::new(alloc),
            left: MOST_OTHERS,
        }
    }

    /// Adds a receive at the end, unless there are too many others then.
    pub fn push(&mut self, receive: WildcardReceive) -> Result<(), RaceFault>
        ensures ok { OnOk result (self.new ≡ self.old ++ receive ∷ []) }
        ensures many { result ≡ Err TooMany → most_racing < count_racing (self.old ++ receive ∷ []) }
    {
        let others = receive.others.as_slice().len();
        if others > self.left as usize {
            return Err(RaceFault::TooMany);
        }
        match self.receives.push(receive) {
            Ok(()) => {}
            Err(_) => return Err(RaceFault::NoMemory),
        }
        self.left -= others as u32;
        Ok(())
    }

    /// The receives in order.
    pub fn into_receives(self) -> Receives
        ensures receives { result ≡ self }
        ensures few { count_racing result ≤ most_racing }
    {
        self.receives
    }
}
