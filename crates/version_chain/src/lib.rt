//! Slots in an order that changes at its end and in its midst: items by ascending version, and what is due.
#![tactic(auto)]

mod chain;
mod links;
mod queue;

pub use chain::Chain;
pub use queue::DueQueue;

#[cfg(test)]
mod tests;
