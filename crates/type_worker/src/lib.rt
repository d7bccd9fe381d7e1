//! One type's part of a client's cycle: which entities of a reply open and as what, the batch that waits for a key, and
//! what is sealed for a commit.
#![tactic(auto)]

mod batch;
mod blocked;
mod contribution;
mod entries;
mod locks;
mod open_fault;
mod opening;
mod pending;
mod sealing;
mod settling;
mod worker;

pub use blocked::{BlockCause, Blocked};
pub use settling::{Lock, settle};
pub use worker::{Taken, Worker};

#[cfg(test)]
mod tests;
