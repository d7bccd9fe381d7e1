//! Commands with options: what their words say, and the lines with which they end.
//!
//! Each option is two words, a name and a value, and options may stand in any order.
#![tactic(auto)]

mod commands;
mod endings;
mod options;

pub use commands::{
    ClientOptions, GenerateOptions, ServeOptions, SoakOptions, client_options, generate_options,
    serve_options, soak_options,
};
pub use endings::{bad_reply, bad_store, keeper_fault, net_fault, place_fault};

#[cfg(test)]
mod tests;
