//! A keeper in memory, whose calls fail where it was told to.
ghost use Rattle.std.specs.Prelude.{◌≡◌, ◌↔◌, Some, IsErr, IfOk, IfErr, OnOk, OnErr};
ghost use Rattle.std.specs.Result.{IsErrAnd};
ghost use Rattle.outer_edge.specs.Faults.{NeverFalls};
ghost use Rattle.client_keeper.specs.Rows.{rows_of, AreInOrder};
ghost use Rattle.client_keeper.specs.Keepers.{new_keeper, keeper_of, FailsNext, after_call, after_fault, after_change, after_load_fault, after_apply_fault};
ghost use Rattle.client_keeper.specs.Slots.{shown};
ghost use Rattle.client_keeper.specs.declared.keeper.LoadFault.TheVariants as load;
ghost use Rattle.client_keeper.specs.declared.keeper.ApplyFault.TheVariants as apply;

use crate::slots::{self, Slots};
use crate::{ApplyFault, Change, Keeper, KeptRow, LoadFault};
use outer_edge::Failed;
use std::alloc::Global;
use std::collections::BTreeMap;
use std::marker::Model;
use wire_fields::List;

/// Rows in memory. Its calls fail where it was told to: the first one is number 1, whether it loads or changes.
#[derive(Drop)]
pub struct MemoryKeeper {
    alloc: Global,
    slots: Slots,
    calls: u64,
    failing: List<u64>,
    faults: u64,
}

impl Model for MemoryKeeper {
    ghost use Rattle.client_keeper.specs.Keepers.{KeeperState};
    ghost use Rattle.client_keeper.specs.Slots.{shown};

    ghost Value = { KeeperState };

    ghost view = { λ keeper. record {
      rows = shown keeper.slots.entries;
      calls = keeper.calls;
      failing = keeper.failing;
      faults = keeper.faults;
    } };
}

impl MemoryKeeper {
    /// A keeper without rows. It takes no memory. `failing` has the numbers of the calls that fail.
    pub fn new(alloc: Global, failing: List<u64>) -> MemoryKeeper
        ensures { result ≡ new_keeper failing }
    {
        MemoryKeeper {
            alloc,
            slots: BTreeMap::new(alloc),
            calls: 0,
            failing,
            faults: 0,
        }
    }

    // A keeper of these rows, none of whose calls fails.
    pub(crate) fn over(alloc: Global, slots: Slots) -> MemoryKeeper
        ensures { result ≡ keeper_of (shown slots.entries) }
    {
        MemoryKeeper {
            alloc,
            slots,
            calls: 0,
            failing: List::new(alloc),
            faults: 0,
        }
    }

    // How often a call has failed.
    pub(crate) fn fault_count(&self) -> u64
        ensures { result ≡ self.now.faults }
    {
        self.faults
    }

    // The slots of its rows, without a copy.
    pub(crate) fn into_slots(self) -> Slots
        ensures { shown result.entries ≡ self.rows }
    {
        self.slots
    }

    // Counts a call, and its fault where it is one that fails.
    fn begin(&mut self) -> Result<(), Failed>
        ensures fails { IsErr result ↔ FailsNext self.old }
        ensures ok { OnOk result (self.new ≡ after_call self.old) }
        ensures err { OnErr result (self.new ≡ after_fault self.old) }
        ensures never_falls { NeverFalls self.old.faults self.new.faults }
    {
        self.calls = self.calls.saturating_add(1);
        if self.failing.as_slice().contains(&self.calls) {
            self.faults = self.faults.saturating_add(1);
            return Err(Failed);
        }
        Ok(())
    }
}

impl Keeper for MemoryKeeper {
    ghost holds = { λ keeper. Some keeper.rows };

    ghost faults = { λ keeper. keeper.faults };

    fn load(&mut self) -> Result<List<KeptRow>, LoadFault>
        ensures fails { IsErrAnd result (λ fault. fault ≡ load.Failed) ↔ FailsNext self.old }
        ensures all { IfOk result (λ rows. rows_of rows ≡ self.old.rows) }
        ensures in_order { IfOk result (λ rows. AreInOrder (rows_of rows)) }
        ensures ok { OnOk result (self.new ≡ after_call self.old) }
        ensures err { IfErr result (λ fault. self.new ≡ after_load_fault fault self.old) }
        ensures never_falls { NeverFalls self.old.faults self.new.faults }
    {
        if self.begin().is_err() {
            return Err(LoadFault::Failed);
        }
        match slots::copy_rows(self.alloc, &self.slots) {
            Ok(rows) => Ok(rows),
            Err(_) => Err(LoadFault::NoMemory),
        }
    }

    /// The cost is that of the change, times the logarithm of the number of rows.
    fn apply(&mut self, change: &Change) -> Result<(), ApplyFault>
        ensures fails { IsErrAnd result (λ fault. fault ≡ apply.Failed) ↔ FailsNext self.old }
        ensures whole { OnOk result (self.new ≡ after_change change.now self.old) }
        ensures err { IfErr result (λ fault. self.new ≡ after_apply_fault fault self.old) }
        ensures never_falls { NeverFalls self.old.faults self.new.faults }
    {
        if self.begin().is_err() {
            return Err(ApplyFault::Failed);
        }
        match slots::change_rows(self.alloc, &mut self.slots, change.entries()) {
            Ok(()) => Ok(()),
            Err(_) => Err(ApplyFault::NoMemory),
        }
    }
}
