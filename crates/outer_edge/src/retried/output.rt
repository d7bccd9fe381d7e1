//! Calls that take bytes as a sink.
ghost use Rattle.std.specs.Prelude.{◌≡◌, ◌<◌, ◌≤◌, length, take, IfOk, OnOk, OnErr};
ghost use Rattle.outer_edge.specs.Faults.{NeverFalls, counted};
ghost use Rattle.outer_edge.specs.Source.{Grew};
ghost use Rattle.outer_edge.specs.Calls.{NoneFailed, GaveUp};

use super::{Retried, TRIES};
use crate::{CallFault, Failed, OutputCalls, Sink};

impl<C: OutputCalls> Sink for Retried<C> {
    ghost taken = { λ s. C.taken s.calls };

    ghost faults = { λ s. s.faults };

    /// Answers what the first call answers that is not interrupted.
    fn write(&mut self, piece: &[u8]) -> Result<usize, Failed>
        ensures fits { IfOk result (λ count. count ≤ length piece.now) }
        ensures took { IfOk result (λ count. Grew (C.taken self.old.calls) (C.taken self.new.calls) (take count piece.now)) }
        ensures goes_on { IfOk result (λ count. 0 < length piece.now → 0 < count) }
        ensures no_fault { OnOk result (self.new.faults ≡ self.old.faults) }
        ensures none_failed { OnOk result (NoneFailed (C.counts self.old.calls) (C.counts self.new.calls)) }

        ensures one_more { OnErr result (self.new.faults ≡ counted self.old.faults) }
        ensures gave_up { OnErr result (GaveUp (C.counts self.old.calls) (C.counts self.new.calls)) }
        ensures none_taken { OnErr result (C.taken self.new.calls ≡ C.taken self.old.calls) }
        ensures never_falls { NeverFalls self.old.faults self.new.faults }
    {
        match write_retried(&mut self.calls, piece) {
            Ok(count) => Ok(count),
            Err(Failed) => {
                self.faults = self.faults.saturating_add(1);
                Err(Failed)
            }
        }
    }
}

// One call that is not interrupted.
pub(crate) fn write_retried<C: OutputCalls>(calls: &mut C, piece: &[u8]) -> Result<usize, Failed>
    ensures fits { IfOk result (λ count. count ≤ length piece.now) }
    ensures took { IfOk result (λ count. Grew (C.taken calls.old) (C.taken calls.new) (take count piece.now)) }
    ensures goes_on { IfOk result (λ count. 0 < length piece.now → 0 < count) }
    ensures none_failed { OnOk result (NoneFailed (C.counts calls.old) (C.counts calls.new)) }

    ensures gave_up { OnErr result (GaveUp (C.counts calls.old) (C.counts calls.new)) }
    ensures none_taken { OnErr result (C.taken calls.new ≡ C.taken calls.old) }
{
    for _interrupted in 0..TRIES {
        match calls.write_once(piece) {
            Ok(count) => return Ok(count),
            Err(CallFault::Interruption) => {}
            Err(CallFault::Failure) => return Err(Failed),
        }
    }
    Err(Failed)
}
