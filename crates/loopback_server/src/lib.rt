//! A server that answers messages over what it has stored.
#![tactic(auto)]

mod asked;
mod candidate;
mod index;
mod page;
mod server;
mod store;
mod taken_back;
mod updates;
mod write;

pub use server::Server;

#[cfg(test)]
mod tests;
