//! The outside world of the program: bytes that come, bytes that go, draws, and counts of faults.
//!
//! A [`Source`] gives bytes, a [`Sink`] takes them, and a [`Link`] does both. A [`Net`] gives links to those that it
//! dials, and a [`Door`] the links that come in. Each has a count of its faults, which never falls: a call fails only
//! where the count rose. So a caller can tell a fault of the outside from one of its own.
#![tactic(auto)]

mod buffered;
mod calls;
mod faults;
mod link;
mod loopback;
mod memory;
mod net;
mod retried;
mod sink;
mod source;
mod standard;
mod stream;
mod sure;
mod words;

pub use buffered::Buffered;
pub use calls::{CallCounts, CallFault, InputCalls, OutputCalls, fault_of};
pub use faults::{Failed, NoMemory};
pub use link::Link;
pub use loopback::{LoopbackDoor, LoopbackLink, LoopbackNet};
pub use memory::{MemoryDoor, MemoryLink, MemoryNet, MemorySink, MemorySource};
pub use net::{Door, Net};
pub use random_vectors::{Dice, SeedDice};
pub use retried::Retried;
pub use sink::{Sink, WriteFault, write_whole};
pub use source::{ReadEnd, Source, read_up_to};
pub use standard::{PrinterCalls, ReaderCalls, StandardInput, StandardOutput};
pub use stream::StreamCalls;
pub use sure::{SureSink, SureSource};
pub use words::Words;

#[cfg(test)]
mod tests;
