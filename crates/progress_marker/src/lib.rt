//! Progress markers: how far into a server's history a client has come, and the token that says it.
#![tactic(auto)]

mod fault;
mod mark;

pub use fault::BadToken;
pub use mark::Mark;

#[cfg(test)]
mod tests;
