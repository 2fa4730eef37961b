//! Which calls of a value in memory are to fail.
ghost use Rattle.std.specs.Prelude.{◌≡◌, ◌↔◌, OnOk, OnErr, IsTrue};
ghost use Rattle.wiz_io.specs.Calls.{IsNextFailing, no_calls, with_failing, with_one_more};

use std::alloc::{AllocError, Global};
use std::marker::Model;

/// The numbers, from 0, of the calls that are to fail, and how many calls there were.
#[derive(Drop)]
pub struct Failures {
    named: Vec<u64>,
    calls: u64,
}

impl Model for Failures {
    ghost use Rattle.wiz_io.specs.Calls.{Calls};

    ghost Value = { Calls };

    ghost view = { λ s. record { failing = s.named.items; made = s.calls } };
}

impl Failures {
    pub fn new(alloc: Global) -> Self
        ensures { result ≡ no_calls }
    {
        Failures {
            named: Vec::new(alloc),
            calls: 0,
        }
    }

    /// Names a call.
    pub fn name(&mut self, call: u32) -> Result<(), AllocError>
        ensures ok { OnOk result (self.new ≡ with_failing self.old call) }
        ensures err { OnErr result (self.new ≡ self.old) }
    {
        self.named.push(u64::from(call))?;
        Ok(())
    }

    /// Counts one more call, and says whether it is to fail.
    pub fn is_next_failing(&mut self) -> bool
        ensures fails { IsTrue result ↔ IsNextFailing self.old }
        ensures made { self.new ≡ with_one_more self.old }
    {
        let call = self.calls;
        self.calls = call.saturating_add(1);
        self.named.as_slice().contains(&call)
    }
}
