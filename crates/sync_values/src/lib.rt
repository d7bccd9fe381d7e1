//! What entities hold, as plain values, and the edits that change them.
#![tactic(auto)]

mod edit;
mod value;

pub use client_tags::Kind;
pub use edit::Edit;
pub use key_derivation::NigoriKey;
pub use value::{NigoriValue, PassKind, Password, Preference, Value};

#[cfg(test)]
mod tests;
