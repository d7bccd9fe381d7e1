//! Messages as people read them: what bytes say, whether they are canonical, and what is wrong with them.
#![tactic(auto)]

mod fault;
mod laws;
mod lines;
mod message;
mod text;

pub use fault::write_fault;
pub use laws::bytes_say_one_message;
pub use message::{Direction, WireMessage};
pub use sync_messages::{FromServer, MessageFault, MessageReason, ToServer};
pub use text::{checked_text, shown_text};

#[cfg(test)]
mod tests;
