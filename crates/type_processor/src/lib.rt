//! The processor of one type of a client: what it has of the type's keys, the edits of its user, and what the
//! server's replies make of them.
#![tactic(auto)]

mod acks;
mod answers;
mod counts;
mod edits;
mod journal;
mod mail;
mod notes;
mod offers;
mod processor;
mod tasks;
mod trackers;
mod updates;

pub use answers::{EditFault, Edited, Turn};
pub use client_tags::TagHash;
pub use conflict_rules::{NigoriRules, Passwords, Preferences, TypeRules};
pub use entity_tracker::Tracker;
pub use processor::Processor;
pub use sync_model::{Ack, Batch, Edit, Fate, Kind, Note, Offer, Task, Update, Value};
pub use trackers::TrackersIter;

#[cfg(test)]
mod tests;
