//! What every run of the program is given beside its schedule: real hashes, keys and rules, as `hashed` says, to
//! which the laws of the model apply.
#![tactic(auto)]

mod laws;

pub use laws::hashed_is_a_setting;

#[cfg(test)]
mod tests;
