//! The messages of a replayed run: what its requests and replies are as bytes, and the record of them all.
#![tactic(auto)]

mod laws;
mod reading;
mod told;
mod wire_record;

pub use laws::server_agrees;
pub use reading::{read_reply, read_request};
pub use sync_messages::{FromServer, ToServer};
pub use told::{id_of, request_message};
pub use wire_record::Record;

#[cfg(test)]
mod tests;
