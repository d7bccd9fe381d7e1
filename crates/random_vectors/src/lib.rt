//! Initialization vectors: what draws them, and draws from a seed that can be told beforehand.
#![tactic(auto)]

mod dice;

pub use dice::{Dice, SeedDice};

#[cfg(test)]
mod tests;
