//! Where keepers come from.
ghost use Rattle.std.specs.Prelude.{◌≡◌, ◌==◌, ℕ, cond, Some, IfOk, IfErr, OnOk, Option, IfSome};
ghost use Rattle.outer_edge.specs.Faults.{NeverFalls, counted};
ghost use Rattle.client_keeper.specs.Keepers.{IsCauseOfLoad};
ghost use Rattle.client_keeper.specs.Stores.{Stores, HasStore, HaveOwnNames, KeepsToldNames, IsSpoiledBy, rows_at, told_with_name, told_with_rows, told_after_fault};

use crate::{Keeper, LoadFault};

/// Where stores of rows are, each under its name, as in a folder. It gives a store's keeper, and takes it back.
pub trait Place {
    type Kept: Keeper;

    /// The stores with their names, where the place tells.
    ghost stores: { Self → Option Stores };

    /// How often the outside has failed to give a keeper. At 2^64 - 1 it stays.
    ghost faults: { Self → ℕ };

    /// How many keepers came back with faults. At 2^64 - 1 it stays.
    ghost spoiled: { Self → ℕ };

    /// The keeper of the store with this name. A store that is missing is made, without rows.
    fn keeper(&mut self, name: &str) -> Result<Self::Kept, LoadFault>
        ensures rows { IfOk result (λ keeper. IfSome (stores self.old)
            (λ told. Self.Kept.holds keeper ≡ Some (rows_at told name.now))) }
        ensures sound { IfOk result (λ keeper. Self.Kept.faults keeper ≡ 0) }
        ensures named { OnOk result (stores self.new ≡ told_with_name (stores self.old) name.now) }
        ensures has { OnOk result (IfSome (stores self.new) (λ told. HasStore told name.now)) }
        ensures no_fault { OnOk result (faults self.new ≡ faults self.old) }

        ensures cause { IfErr result (λ fault. IsCauseOfLoad fault (faults self.old) (faults self.new)) }
        ensures left { IfErr result (λ fault. stores self.new ≡ told_after_fault fault (stores self.old) name.now) }
        ensures none_spoiled { spoiled self.new ≡ spoiled self.old }
        ensures kept { KeepsToldNames (stores self.old) (stores self.new) }
        ensures own_names { IfSome (stores self.new) (λ told. HaveOwnNames told) }
        ensures never_falls { NeverFalls (faults self.old) (faults self.new) };

    /// Takes a keeper back, whose rows are then those of its store.
    fn back(&mut self, name: &str, keeper: Self::Kept)
        requires { IfSome (stores self.old) (λ told. HasStore told name.now) }
        ensures rows { stores self.new ≡ told_with_rows (stores self.old) name.now (Self.Kept.holds keeper) }
        ensures spoiled { IsSpoiledBy (Self.Kept.faults keeper) (spoiled self.old) (spoiled self.new) }
        ensures no_fault { faults self.new ≡ faults self.old }
        ensures kept { KeepsToldNames (stores self.old) (stores self.new) }
        ensures own_names { IfSome (stores self.new) (λ told. HaveOwnNames told) }
        ensures never_falls { NeverFalls (spoiled self.old) (spoiled self.new) };
}

// How many keepers came back with faults, where one came back with so many.
pub(crate) fn spoiled_by(faults: u64, spoiled: u64) -> u64
    ensures value { result ≡ cond (0 == faults) spoiled (counted spoiled) }
    ensures spoiled { IsSpoiledBy faults spoiled result }
    ensures never_falls { NeverFalls spoiled result }
{
    if faults == 0 {
        spoiled
    } else {
        spoiled.saturating_add(1)
    }
}
