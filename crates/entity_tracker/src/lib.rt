//! What a client knows of one key: the server's value, its own, and which of its edits the server lacks.
#![tactic(auto)]

mod offered;
mod tracker;

pub use client_tags::TagHash;
pub use sync_model::{Ack, Offer, Offered, Task, Update};
pub use tracker::{Acked, Tracker};

#[cfg(test)]
mod tests;
