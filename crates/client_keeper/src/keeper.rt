//! What keeps rows.
ghost use Rattle.std.specs.Prelude.{◌≡◌, ℕ, IfOk, IfErr, OnOk, OnErr, Option, IfSome};
ghost use Rattle.outer_edge.specs.Faults.{NeverFalls};
ghost use Rattle.client_keeper.specs.Rows.{Rows, AreInOrder, rows_of};
ghost use Rattle.client_keeper.specs.Keepers.{told_changed, IsCauseOfLoad, IsCauseOfApply, IsLeftBy};

use crate::{Change, KeptRow};
use thiserror::Error;
use wire_fields::List;

/// Why rows were not loaded.
#[derive(Clone, Copy, Debug, PartialEq, Eq, Error)]
pub enum LoadFault {
    /// The outside failed, which the count of faults says too.
    #[error("what keeps the rows failed")]
    Failed,
    /// Nothing has changed.
    #[error("memory ran out")]
    NoMemory,
}

/// Why a change was not made.
#[derive(Clone, Copy, Debug, PartialEq, Eq, Error)]
pub enum ApplyFault {
    /// The outside failed, which the count of faults says too. The change was made whole or not at all.
    #[error("what keeps the rows failed")]
    Failed,
    /// Nothing has changed.
    #[error("memory ran out")]
    NoMemory,
}

/// What keeps rows over a restart, as a file does.
pub trait Keeper {
    /// The rows that it has, where the keeper tells.
    ghost holds: { Self → Option Rows };

    /// How often the outside has failed. At 2^64 - 1 it stays.
    ghost faults: { Self → ℕ };

    /// All the rows, by ascending table and key. It changes none, whatever it answers.
    fn load(&mut self) -> Result<List<KeptRow>, LoadFault>
        ensures all { IfOk result (λ rows. IfSome (holds self.old) (λ told. rows_of rows ≡ told)) }
        ensures in_order { IfOk result (λ rows. AreInOrder (rows_of rows)) }
        ensures no_fault { OnOk result (faults self.new ≡ faults self.old) }

        ensures cause { IfErr result (λ fault. IsCauseOfLoad fault (faults self.old) (faults self.new)) }
        ensures none_changed { holds self.new ≡ holds self.old }
        ensures never_falls { NeverFalls (faults self.old) (faults self.new) };

    /// Makes the whole change.
    fn apply(&mut self, change: &Change) -> Result<(), ApplyFault>
        ensures whole { OnOk result (holds self.new ≡ told_changed (holds self.old) change.now) }
        ensures no_fault { OnOk result (faults self.new ≡ faults self.old) }

        ensures cause { IfErr result (λ fault. IsCauseOfApply fault (faults self.old) (faults self.new)) }
        ensures left { IfErr result (λ fault. IsLeftBy fault (holds self.old) (holds self.new) change.now) }
        ensures never_falls { NeverFalls (faults self.old) (faults self.new) };
}
