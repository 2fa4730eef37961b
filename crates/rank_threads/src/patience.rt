//! How long a rank that waits looks whether it was woken before its thread sleeps.

/// How often it looks at least.
const FEW: u32 = 16;

/// How often it looks at most where there is a processor for each rank: some 20 microseconds.
pub const MOST: u32 = 400;

/// How often it looks at most where there are more ranks than processors, and others run between the later looks.
pub const MOST_BESIDE_OTHERS: u32 = 80;

/// Of so many waits one looks as often as any, whatever paid lately.
const TRIES: u32 = 16;

/// A rank's patience: it grows where looking found the event, and shrinks where it did not.
#[derive(Drop)]
pub struct Patience {
    looks: u32,
    /// How often the rank waited, modulo 2^32.
    waits: u32,
}

impl Patience {
    /// Of a rank that has not waited yet.
    pub fn new() -> Patience {
        Patience {
            looks: MOST,
            waits: 0,
        }
    }

    /// How often the rank looks this time, where it looks at most so often.
    pub fn looks(&mut self, most: u32) -> u32 {
        self.waits = self.waits.wrapping_add(1);
        if self.waits % TRIES == 0 {
            most
        } else {
            self.looks.min(most)
        }
    }

    /// The rank was woken at its look of this number.
    pub fn paid(&mut self, look: u32) {
        self.looks = self.looks.max(look.saturating_mul(2)).min(MOST);
    }

    /// The rank was not woken at any look.
    pub fn was_in_vain(&mut self) {
        self.looks = (self.looks - self.looks / 8).max(FEW);
    }
}
