//! That the outside failed, or that memory ran out.
ghost use Rattle.std.specs.Prelude.{◌≡◌};
ghost use Rattle.outer_edge.specs.Faults.{NeverFalls, counted_where};
ghost use Rattle.outer_edge.specs.Nets.{RaisedWhere};

use std::alloc::{AllocError, AllocFailed};
use thiserror::Error;

/// A call of the outside failed. Its count of faults says so too.
#[derive(Clone, Copy, Debug, PartialEq, Eq, Error)]
#[error("a call of the outside failed")]
pub struct Failed;

/// Memory ran out.
#[derive(Clone, Copy, Debug, PartialEq, Eq, Error)]
#[error("memory ran out")]
pub struct NoMemory;

impl From<AllocError> for NoMemory {
    fn from(_: AllocError) -> Self {
        NoMemory
    }
}

impl<T: Drop> From<AllocFailed<T>> for NoMemory {
    fn from(_: AllocFailed<T>) -> Self {
        NoMemory
    }
}

// How often something has come back with a fault, where it has come back with one or not.
pub(crate) fn counted_if(has_fault: bool, count: u64) -> u64
    ensures value { result ≡ counted_where has_fault count }
    ensures raised { RaisedWhere has_fault count result }
    ensures never_falls { NeverFalls count result }
{
    if has_fault {
        count.saturating_add(1)
    } else {
        count
    }
}
