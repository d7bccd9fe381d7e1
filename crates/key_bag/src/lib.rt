//! The keys of a profile by their names, and texts that are sealed and unsealed with them.
#![tactic(auto)]

mod bag;
mod fault;
mod laws;
mod message;
mod named;
mod texts;

pub use bag::{Added, KeyBag};
pub use fault::{AnyFault, NoKey, SealFault};
pub use laws::{packed_keys_are_unpacked, sealed_texts_are_unsealed};

#[cfg(test)]
mod tests;
