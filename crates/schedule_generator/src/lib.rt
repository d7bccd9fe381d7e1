//! Schedules from a number: all that happens in one is drawn from its seed, so that a long run can be told by three
//! numbers.
#![tactic(auto)]

mod draws;
mod edits;
mod generator;
mod rounds;
mod steps;

pub use generator::generate;
pub use steps::Action;

#[cfg(test)]
mod tests;
