//! The fields of a message, looked up by their numbers, and the first fault of a message.
#![tactic(auto)]

mod fault;
mod field;
mod laws;
mod message;
mod read;
mod unknown;
mod write;

pub use fault::{MessageFault, MessageReason, first_fault, first_of};
pub use field::{Held, Known, Part, PlacedField, WireKind};
pub use laws::{extras_are_canonical, pieces_are_one_message};
pub use message::Message;
pub use unknown::is_canonical_extra;
pub use write::{with_extra, write_unless_empty, write_unless_zero};

#[cfg(test)]
mod tests;
