//! Lines of text, written piece by piece at the end of a text.
//!
//! After an `Err` a text may end in a part of what was to be added; what stood there before still stands.
#![tactic(auto)]

mod pieces;
mod words;

pub use pieces::{Piece, write_pieces};
pub use words::{kind_name, write_kind, write_number, write_signed, write_text, write_word};

#[cfg(test)]
mod tests;
