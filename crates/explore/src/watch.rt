//! Who is told how far a search is.

/// After how many more states a search tells how far it is.
pub const WATCHED_STATES: u32 = 1_000;

/// How far a search is.
#[derive(Clone, Copy)]
pub struct Progress {
    /// How many outcomes it found.
    pub outcomes: usize,
    /// How many states it met.
    pub states: usize,
    /// How many of them it has not looked at yet.
    pub left: usize,
}

/// What is told how far a search is, each time that it has looked at `WATCHED_STATES` more states.
pub trait Watcher {
    /// The search is so far. Nothing is promised but that it returns.
    fn looked(&mut self, progress: Progress);
}

/// Tells nobody.
#[derive(Drop)]
pub struct Silent;

impl Watcher for Silent {
    fn looked(&mut self, _progress: Progress) {}
}
