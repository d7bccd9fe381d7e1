//! A desk: a locked core whose state is the outcome of its trail.
//!
//! Several threads work on one core. Each has a [`Pass`] with a seat of its own, and each call of a pass is a step of
//! the [`Core`] under the desk's lock, which joins the trail as an [`Entry`]. Whoever reads the trail of a closed
//! [`Desk`] can tell what each thread did, in which order, what it was answered, and that the state is what all of
//! that leads to.
#![tactic(auto)]

mod desk;
mod entry;
mod held;
mod pass;
mod rule;
mod stepping;
mod tickets;
mod tokens;

pub use desk::{Desk, Opened};
pub use entry::{Entry, Opening};
pub use pass::Pass;
pub use rule::Room;
pub use stepping::Core;
pub use tickets::Tickets;

#[cfg(test)]
mod tests;
