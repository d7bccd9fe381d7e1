//! The lines of a report, each written at the end of a text.
//!
//! A key is shown by the text of its hash, as the setting `hashed` says. There are no passphrases. After an `Err` a
//! text may end in a part of what was to be added; what stood there before still stands.
#![tactic(auto)]

mod digest;
mod lines;
mod values;

pub use digest::write_digest_line;
pub use lines::{
    SideCounts, write_client_line, write_entity_line, write_events_line, write_fate_line,
    write_server_line, write_side_line, write_totals_line, write_value_line,
};
pub use values::{write_lock, write_value};

#[cfg(test)]
mod tests;
