//! HTTP at the edge of the program, a profile of RFC 9112: one request and its reply on a link, each with one body.
//!
//! A server reads the request, writes the reply and hangs up; a client writes the request and reads the reply. A head
//! ends at its first empty line. Not a byte is read past a message.
#![tactic(auto)]

mod client;
mod fault;
mod fields;
mod heads;
mod incoming;
mod laws;
mod message;
mod outgoing;
mod server;

pub use client::exchange;
pub use fault::EdgeFault;
pub use laws::{
    replies_have_one_answer, requests_have_one_answer, written_replies_are_read,
    written_requests_are_read,
};
pub use server::{is_reply, read_request, write_reply};

#[cfg(test)]
mod tests;
