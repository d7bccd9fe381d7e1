//! The client of a replayed run: the processors of its three types, what its cycle of requests keeps, and what each
//! event makes of it. It has preferences alone, and nothing seals them.
#![tactic(auto)]

mod client;
mod edits;
mod held;
mod laws;
mod letters;
mod reading;
mod receiving;
mod sending;
mod side;
mod updates;
mod waiting;

pub use client::Client;
pub use laws::every_reply_is_taken;
pub use sync_messages::FromServer;
pub use sync_model::{Content, Edit, EventOutcome, Kind, Request, Settlement};
pub use type_processor::{Tracker, TrackersIter};

#[cfg(test)]
mod tests;
