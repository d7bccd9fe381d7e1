//! What a desk can lock.
ghost use Rattle.std.specs.Prelude.{◌≡◌, IfOk, OnErr};

use std::alloc::AllocError;

/// What a desk locks: a state that moves by acts, of which each is given an answer.
///
/// `steps` may be a relation: where a fault of the outside leaves the state before or after, both are steps.
pub trait Core<A, G>: Drop {
    // The act may be asked of the state.
    ghost takes: { Self → A → Type 0 };

    // From a state, by an act and with its answer, to a state.
    ghost steps: { Self → A → G → Self → Type 0 };

    /// Makes one step, and gives its answer twice: one for the trail, and one for the caller. Both are made before the
    /// state changes, so that want of memory changes nothing.
    fn step(&mut self, act: &A) -> Result<(G, G), AllocError>
        requires { takes self.old act.now }
        ensures same { IfOk result (λ gave. gave.1 ≡ gave.0) }
        ensures steps { IfOk result (λ gave. steps self.old act.now gave.0 self.new) }
        ensures err { OnErr result (self.new ≡ self.old) };

    // What may be asked of a state may be asked after each step.
    ghost goes_on_taking: { (old : Self) (act : A) (gave : G) (new : Self) (other : A) → steps old act gave new → takes old other → takes new other };
}
