//! What the engine means: the plain data of its events and messages, and in `specs/` the server's
//! history, the sides and clients, the world with its steps, and the report of a world.
#![tactic(auto)]

mod conflict;
mod event;
mod fate;
mod laws;
mod message;
mod refusal;
mod state;

pub use conflict::{Choice, Decision, Resolution, Row};
pub use event::{Event, EventOutcome, Schedule};
pub use fate::{Fate, Note, Settlement};
pub use laws::{
    every_caught_up_side_agrees, every_entry_writes_once, every_fate_is_true,
    every_own_echo_is_known, every_world_is_lawful, every_write_is_based, no_key_is_lost,
};
pub use message::{
    Ack, Answer, Batch, Call, Content, Draw, Entry, Key, Marker, Offer, Reply, Request, Task,
    Update, Updates, Verdict,
};
pub use refusal::{EditRefusal, PassRefusal};
pub use state::{KeyState, Offered, Wanted};
pub use sync_values::{Edit, Kind, Value};

#[cfg(test)]
mod tests;
