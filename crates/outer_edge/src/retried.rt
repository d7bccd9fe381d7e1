//! Calls of the system as a source and as a sink: an interrupted call is made again.
ghost use Rattle.std.specs.Prelude.{◌≡◌};

mod input;
mod output;

pub(crate) use input::read_retried;
pub(crate) use output::write_retried;

// How often a call is made at most, each time interrupted.
const TRIES: u64 = u64::MAX;

/// Calls of the system, of which those that are interrupted are made again, at most 2^64 - 1 times. Each is one of the
/// system's, so nothing is kept back.
#[derive(Debug, Drop)]
pub struct Retried<C> {
    calls: C,
    faults: u64,
}

impl<C> Retried<C> {
    pub fn over(calls: C) -> Self
        ensures calls { result.calls ≡ calls }
        ensures no_faults { result.faults ≡ 0 }
    {
        Retried { calls, faults: 0 }
    }
}
