//! One call of the system at a time, which may be interrupted.
ghost use Rattle.std.specs.Prelude.{◌≡◌, ◌<◌, ◌≤◌, ℕ, List, length, take, drop, IfOk, IfErr, OnOk, OnErr, Option};
ghost use Rattle.std.specs.IoError.{error_kind};
ghost use Rattle.outer_edge.specs.Source.{Gave, Grew, IsAtEnd};
ghost use Rattle.outer_edge.specs.Calls.{IsFaultOf, with_fault};
ghost use Rattle.outer_edge.specs.declared.calls.CallCounts.{CallCounts as Counts};

use std::io::{Error, ErrorKind};

/// Why one call of the system gave no answer.
#[derive(Clone, Copy, Debug, PartialEq, Eq)]
pub enum CallFault {
    /// It was interrupted before it did anything. The next one may succeed.
    Interruption,
    /// It failed.
    Failure,
}

/// The fault that an error of the system's is.
pub fn fault_of(error: &Error) -> CallFault
    ensures { IsFaultOf (error_kind error.now) result }
{
    match error.kind() {
        ErrorKind::Interrupted => CallFault::Interruption,
        _ => CallFault::Failure,
    }
}

/// How many calls of the system gave no answer, by why. At 2^64 - 1 a count stays.
#[derive(Clone, Copy, Debug, Default, PartialEq, Eq)]
pub struct CallCounts {
    pub failures: u64,
    pub interruptions: u64,
}

impl CallCounts {
    /// No call yet.
    pub fn new() -> Self
        ensures { result ≡ record { failures = 0; interruptions = 0 } }
    {
        CallCounts {
            failures: 0,
            interruptions: 0,
        }
    }

    /// Counts a call that ended so.
    pub fn add(&mut self, fault: CallFault)
        ensures { self.new ≡ with_fault fault self.old }
    {
        match fault {
            CallFault::Interruption => self.interruptions = self.interruptions.saturating_add(1),
            CallFault::Failure => self.failures = self.failures.saturating_add(1),
        }
    }
}

/// What the system gives bytes by: one call at a time.
pub trait InputCalls {
    /// The bytes that are still to come, where they are told.
    ghost left: { Self → Option (List ℕ) };

    /// The bytes that came so far, where they are told.
    ghost came: { Self → Option (List ℕ) };

    /// The calls that gave no answer.
    ghost counts: { Self → Counts };

    /// One call. It gives the next bytes at the front of the room, and says how many. None in a room that is not empty
    /// means that there are no more.
    fn read_once(&mut self, room: &mut [u8]) -> Result<usize, CallFault>
        ensures fits { IfOk result (λ count. count ≤ length room.old) }
        ensures gave { IfOk result (λ count. Gave left came self.old self.new (take count room.new)) }
        ensures rest_of_room { IfOk result (λ count. drop count room.new ≡ drop count room.old) }
        ensures ended { IfOk result (λ count. count ≡ 0 → 0 < length room.old → IsAtEnd (left self.old)) }
        ensures no_fault { OnOk result (counts self.new ≡ counts self.old) }

        ensures fault { IfErr result (λ fault. counts self.new ≡ with_fault fault (counts self.old)) }
        ensures none_lost { OnErr result (left self.new ≡ left self.old) }
        ensures none_came { OnErr result (came self.new ≡ came self.old) }
        ensures room_kept { OnErr result (room.new ≡ room.old) };
}

/// What the system takes bytes by: one call at a time.
pub trait OutputCalls {
    /// The bytes that were taken so far, where they are told.
    ghost taken: { Self → Option (List ℕ) };

    /// The calls that gave no answer.
    ghost counts: { Self → Counts };

    /// One call. It takes bytes at the front of the piece, and says how many: at least one, where there is one.
    fn write_once(&mut self, piece: &[u8]) -> Result<usize, CallFault>
        ensures fits { IfOk result (λ count. count ≤ length piece.now) }
        ensures took { IfOk result (λ count. Grew (taken self.old) (taken self.new) (take count piece.now)) }
        ensures goes_on { IfOk result (λ count. 0 < length piece.now → 0 < count) }
        ensures no_fault { OnOk result (counts self.new ≡ counts self.old) }

        ensures fault { IfErr result (λ fault. counts self.new ≡ with_fault fault (counts self.old)) }
        ensures none_taken { OnErr result (taken self.new ≡ taken self.old) };
}
