//! Calls that give bytes as a source.
ghost use Rattle.std.specs.Prelude.{◌≡◌, ◌<◌, ◌≤◌, length, take, drop, IfOk, OnOk, OnErr};
ghost use Rattle.outer_edge.specs.Faults.{NeverFalls, counted};
ghost use Rattle.outer_edge.specs.Source.{Gave, IsAtEnd};
ghost use Rattle.outer_edge.specs.Calls.{NoneFailed, GaveUp};

use super::{Retried, TRIES};
use crate::{CallFault, Failed, InputCalls, Source};

impl<C: InputCalls> Source for Retried<C> {
    ghost left = { λ s. C.left s.calls };

    ghost came = { λ s. C.came s.calls };

    ghost faults = { λ s. s.faults };

    /// Answers what the first call answers that is not interrupted.
    fn read(&mut self, room: &mut [u8]) -> Result<usize, Failed>
        ensures fits { IfOk result (λ count. count ≤ length room.old) }
        ensures front { IfOk result (λ count. Gave C.left C.came self.old.calls self.new.calls (take count room.new)) }
        ensures rest_of_room { IfOk result (λ count. drop count room.new ≡ drop count room.old) }
        ensures ended { IfOk result (λ count. count ≡ 0 → 0 < length room.old → IsAtEnd (C.left self.old.calls)) }
        ensures no_fault { OnOk result (self.new.faults ≡ self.old.faults) }
        ensures none_failed { OnOk result (NoneFailed (C.counts self.old.calls) (C.counts self.new.calls)) }

        ensures one_more { OnErr result (self.new.faults ≡ counted self.old.faults) }
        ensures gave_up { OnErr result (GaveUp (C.counts self.old.calls) (C.counts self.new.calls)) }
        ensures none_lost { OnErr result (C.left self.new.calls ≡ C.left self.old.calls) }
        ensures none_came { OnErr result (C.came self.new.calls ≡ C.came self.old.calls) }
        ensures never_falls { NeverFalls self.old.faults self.new.faults }
    {
        match read_retried(&mut self.calls, room) {
            Ok(count) => Ok(count),
            Err(Failed) => {
                self.faults = self.faults.saturating_add(1);
                Err(Failed)
            }
        }
    }
}

// One call that is not interrupted.
pub(crate) fn read_retried<C: InputCalls>(calls: &mut C, room: &mut [u8]) -> Result<usize, Failed>
    ensures fits { IfOk result (λ count. count ≤ length room.old) }
    ensures front { IfOk result (λ count. Gave C.left C.came calls.old calls.new (take count room.new)) }
    ensures rest_of_room { IfOk result (λ count. drop count room.new ≡ drop count room.old) }
    ensures ended { IfOk result (λ count. count ≡ 0 → 0 < length room.old → IsAtEnd (C.left calls.old)) }
    ensures none_failed { OnOk result (NoneFailed (C.counts calls.old) (C.counts calls.new)) }

    ensures gave_up { OnErr result (GaveUp (C.counts calls.old) (C.counts calls.new)) }
    ensures none_lost { OnErr result (C.left calls.new ≡ C.left calls.old) }
    ensures none_came { OnErr result (C.came calls.new ≡ C.came calls.old) }
{
    for _interrupted in 0..TRIES {
        match calls.read_once(room) {
            Ok(count) => return Ok(count),
            Err(CallFault::Interruption) => {}
            Err(CallFault::Failure) => return Err(Failed),
        }
    }
    Err(Failed)
}
