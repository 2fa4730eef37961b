//! Files and an output, with their faults: what a program asks of the outside, in memory and on
//! the host.
#![tactic(auto)]

mod calls;
pub mod fault;
mod file_table;
pub mod host;
pub mod memory;
pub mod sink;
pub mod store;
pub mod sure;

pub use fault::{PutFault, ReadFault, WriteFault};
pub use host::{HostSink, HostStore};
pub use memory::{MemorySink, MemoryStore};
pub use sink::Sink;
pub use store::Store;
pub use sure::{SureSink, SureStore};
