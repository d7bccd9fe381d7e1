//! The world of a schedule: it steps the schedule's events as the model does, and gives the report.
#![tactic(auto)]

mod acting;
mod asking;
mod copies;
mod happened;
mod lookups;
mod passing;
mod report;
mod report_clients;
mod report_counts;
mod report_entities;
mod report_fates;
mod run_server;
mod step;
#[cfg(test)]
mod tests;
mod world;

pub use world::{Stepped, World};
