//! The program: it replays a recorded schedule and prints the report of the world that it makes, and looks into
//! recorded messages.
#![tactic(auto)]

mod command;
mod output;
mod refusal;
mod replay;
mod run;
mod start;
mod status;
mod texts;
mod wire;

use outer_edge::{StandardInput, StandardOutput};
use start::start;
use std::env;
use std::process::ExitCode;

#[cfg(test)]
mod tests;

fn main(rt: HostRuntime) -> ExitCode {
    let mut input = StandardInput::new(rt.reader());
    let mut output = StandardOutput::new(&rt);
    let status = start(rt.alloc(), env::args(&rt), &mut input, &mut output);
    ExitCode::from(status.code())
}
