//! Texts that are sealed under the keys of a passphrase, and the names of such keys.
#![tactic(auto)]

mod fault;
mod laws;
mod sealing;
mod unsealing;

pub use fault::UnsealFault;
pub use laws::{names_have_88_characters, unsealing_undoes_sealing};
pub use sealing::{key_name, seal};
pub use unsealing::unseal;

#[cfg(test)]
mod tests;
