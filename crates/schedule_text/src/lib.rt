//! Recorded schedules and the scripts of a client as text.
//!
//! A schedule has one text: a line for the number of clients, the seed unless it is 0, each passphrase, and each
//! event, in this order. `print_schedule` writes it. `parse_schedule` reads it back, and refuses every other text
//! at the first line that cannot stand in its place, with the first reason that fits.
//!
//! A script has one text too: a line for each thing that its user does. `print_script` writes it, and `parse_script`
//! reads it as schedules are read.
#![tactic(auto)]

mod change;
mod event;
mod fault;
mod laws;
mod line;
mod number;
mod parse;
mod pieces;
mod place;
mod print;
mod script;
mod script_laws;
mod script_line;
mod script_parse;
mod script_print;
mod text_word;
mod verb;

pub use fault::{LineReason, ParseFault};
pub use laws::{
    refuses_no_schedule, refuses_one_line, spells_canonical_edits, spells_one_schedule,
    texts_are_read_back,
};
pub use line::Line;
pub use parse::parse_schedule;
pub use print::print_schedule;
pub use script::{Script, ScriptLine};
pub use script_laws::{
    refuses_no_script, refuses_one_script_line, scripts_are_read_back, spells_canonical_scripts,
    spells_one_script,
};
pub use script_parse::parse_script;
pub use script_print::print_script;
pub use sync_model::{Edit, Event, Schedule};

#[cfg(test)]
mod script_tests;
#[cfg(test)]
mod tests;
