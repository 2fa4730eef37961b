//! A store that keeps a copy of one file as it was read.

use wiz_base::Bytes;
use wiz_io::{ReadFault, Store, WriteFault};

/// A store over another. Of the file that is watched it keeps what was read last. Files and answers are those of the other store.
#[derive(Drop)]
pub struct WatchedStore<'n, S: Store + Drop> {
    store: S,
    name: Option<&'n str>,
    seen: Option<Bytes>,
}

impl<'n, S: Store + Drop> WatchedStore<'n, S> {
    /// Watches the file of this name, or none.
    pub fn new(store: S, name: Option<&'n str>) -> Self {
        WatchedStore {
            store,
            name,
            seen: None,
        }
    }

    /// The bytes that were read of the watched file. There are none where it was not read, or its copy found no memory.
    pub fn seen(&self) -> Option<&Bytes> {
        self.seen.as_ref()
    }

    fn is_watched(&self, name: &str) -> bool {
        match self.name {
            Some(watched) => watched == name,
            None => false,
        }
    }
}

impl<'n, S: Store + Drop> Store for WatchedStore<'n, S> {
    ghost observed = { λ s. S.observed s.store };

    fn read(&mut self, name: &str, limit: u64) -> Result<Bytes, ReadFault> {
        let bytes = self.store.read(name, limit)?;
        if self.is_watched(name) {
            self.seen = Bytes::copy_of(&bytes).ok();
        }
        Ok(bytes)
    }

    fn write(&mut self, name: &str, bytes: &[u8]) -> Result<(), WriteFault> {
        self.store.write(name, bytes)
    }
}
