//! The conflict table: what becomes of a value that the server lacks, where a write of the same key comes, and
//! what each type's rule decides there.
#![tactic(auto)]

mod rules;
mod same;
mod table;

pub use rules::{NigoriRules, Passwords, Preferences, TypeRules};
pub use same::same_values;
pub use sync_model::{Choice, Decision, Resolution, Row};
pub use table::resolve;

#[cfg(test)]
mod tests;
