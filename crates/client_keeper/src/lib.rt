//! What a client or a server keeps over a restart: rows of bytes, each with a table and a key.
//!
//! A [`Keeper`] holds rows, and takes a [`Change`] of them whole or not at all. What a row means, its users say.
#![tactic(auto)]

mod change;
mod keeper;
mod laws;
mod memory;
mod memory_place;
mod place;
mod restore;
mod rows;
mod slots;
mod sqlite_keeper;
mod sqlite_place;
mod statements;

pub use change::{Change, Entry};
pub use keeper::{ApplyFault, Keeper, LoadFault};
pub use laws::the_last_entry_stands;
pub use memory::MemoryKeeper;
pub use memory_place::MemoryPlace;
pub use place::Place;
pub use restore::{RestoreFault, StoreReason, Unrestored};
pub use rows::{KeptRow, RowKey};
pub use sqlite_keeper::SqliteKeeper;
pub use sqlite_place::SqlitePlace;
pub use wire_fields::NoMemory;

#[cfg(test)]
mod tests;
