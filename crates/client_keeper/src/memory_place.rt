//! Stores in memory, whose keepers are not given where they were told not to be.
ghost use Rattle.std.specs.Prelude.{◌≡◌, Some, None, IsErr, IfOk, IfErr, OnOk, OnErr, MatchOption};
ghost use Rattle.std.specs.Map.{lookup};
ghost use Rattle.std.specs.Result.{IsErrAnd};
ghost use Rattle.outer_edge.specs.Faults.{NeverFalls};
ghost use Rattle.client_keeper.specs.Keepers.{keeper_of};
ghost use Rattle.client_keeper.specs.Slots.{shown};
ghost use Rattle.client_keeper.specs.Stores.{HasStore, HaveOwnNames, KeepsNames, IsSpoiledBy, is_named, rows_at, with_name, with_rows, new_place, GivesNone, after_giving, after_refusal, after_return};
ghost use Rattle.client_keeper.specs.Names.{stores_of, IsFirstNamed};
ghost use Rattle.client_keeper.specs.declared.keeper.LoadFault.TheVariants as load;

use crate::place::spoiled_by;
use crate::slots::{self, Slots};
use crate::{LoadFault, MemoryKeeper, NoMemory, Place};
use std::alloc::Global;
use std::collections::BTreeMap;
use std::marker::Model;
use wire_fields::{List, Octets};

// The rows of one store.
#[derive(Drop)]
pub(crate) struct Store {
    name: Octets,
    slots: Slots,
}

// The index of the first store with this name.
fn find_store(stores: &[Store], name: &[u8]) -> Option<usize>
    ensures { MatchOption result (lookup (is_named name.now) (stores_of stores.now) ≡ None) (IsFirstNamed stores.now name.now) }
{
    for index in 0..stores.len() {
        if name == stores[index].name.as_slice() {
            return Some(index);
        }
    }
    None
}

// Adds a store without rows at the end.
fn add_store(alloc: Global, stores: &mut Vec<Store>, name: &[u8]) -> Result<(), NoMemory>
    requires { lookup (is_named name.now) (stores_of stores.old.items) ≡ None }
    ensures ok { OnOk result (stores_of stores.new.items ≡ with_name (stores_of stores.old.items) name.now) }
    ensures err { OnErr result (stores_of stores.new.items ≡ stores_of stores.old.items) }
    ensures has { OnOk result (HasStore (stores_of stores.new.items) name.now) }
    ensures kept { KeepsNames (stores_of stores.old.items) (stores_of stores.new.items) }
    ensures own_names { HaveOwnNames (stores_of stores.old.items) → HaveOwnNames (stores_of stores.new.items) }
{
    let store = Store {
        name: Octets::from_slice(alloc, name)?,
        slots: BTreeMap::new(alloc),
    };
    stores.push(store)?;
    Ok(())
}

// A copy of the rows with this name, whose store is added where it is missing.
fn open_store(alloc: Global, stores: &mut Vec<Store>, name: &[u8]) -> Result<Slots, NoMemory>
    ensures rows { IfOk result (λ slots. shown slots.entries ≡ rows_at (stores_of stores.old.items) name.now) }
    ensures ok { OnOk result (stores_of stores.new.items ≡ with_name (stores_of stores.old.items) name.now) }
    ensures err { OnErr result (stores_of stores.new.items ≡ stores_of stores.old.items) }
    ensures has { OnOk result (HasStore (stores_of stores.new.items) name.now) }
    ensures kept { KeepsNames (stores_of stores.old.items) (stores_of stores.new.items) }
    ensures own_names { HaveOwnNames (stores_of stores.old.items) → HaveOwnNames (stores_of stores.new.items) }
{
    match find_store(stores, name) {
        Some(index) => {
            let slots = slots::copy_slots(alloc, &stores[index].slots)?;
            Ok(slots)
        }
        None => {
            add_store(alloc, stores, name)?;
            Ok(BTreeMap::new(alloc))
        }
    }
}

// Sets the rows of the store with this name.
fn set_store(stores: &mut Vec<Store>, name: &[u8], slots: Slots)
    requires { HasStore (stores_of stores.old.items) name.now }
    ensures rows { stores_of stores.new.items ≡ with_rows (stores_of stores.old.items) name.now (shown slots.entries) }
    ensures kept { KeepsNames (stores_of stores.old.items) (stores_of stores.new.items) }
    ensures own_names { HaveOwnNames (stores_of stores.old.items) → HaveOwnNames (stores_of stores.new.items) }
{
    let Some(index) = find_store(stores, name) else {
        return;
    };
    stores[index].slots = slots;
}

/// Stores in memory. A keeper is not given where it was told so: the first that is asked for is number 1. Those that are
/// given never fail.
#[derive(Drop)]
pub struct MemoryPlace {
    alloc: Global,
    stores: Vec<Store>,
    calls: u64,
    failing: List<u64>,
    faults: u64,
    spoiled: u64,
}

impl Model for MemoryPlace {
    ghost use Rattle.client_keeper.specs.Names.{stores_of};
    ghost use Rattle.client_keeper.specs.Stores.{PlaceState, HaveOwnNames};

    ghost Value = { PlaceState };

    ghost view = { λ place. record {
      stores = stores_of place.stores.items;
      calls = place.calls;
      failing = place.failing;
      faults = place.faults;
      spoiled = place.spoiled;
    } };

    ghost invariant = { λ place. HaveOwnNames (stores_of place.stores.items) };
}

impl MemoryPlace {
    /// No stores. It takes no memory. `failing` has the numbers of the calls that give no keeper.
    pub fn new(alloc: Global, failing: List<u64>) -> MemoryPlace
        ensures { result ≡ new_place failing }
    {
        MemoryPlace {
            alloc,
            stores: Vec::new(alloc),
            calls: 0,
            failing,
            faults: 0,
            spoiled: 0,
        }
    }
}

impl Place for MemoryPlace {
    type Kept = MemoryKeeper;

    ghost stores = { λ place. Some place.stores };

    ghost faults = { λ place. place.faults };

    ghost spoiled = { λ place. place.spoiled };

    /// The cost is a copy of the store's rows, times the logarithm of their number, and a look at each name.
    fn keeper(&mut self, name: &str) -> Result<MemoryKeeper, LoadFault>
        ensures fails { IsErrAnd result (λ fault. fault ≡ load.Failed) → GivesNone self.old }
        ensures gives_none { GivesNone self.old → IsErr result }
        ensures keeper { IfOk result (λ keeper. keeper ≡ keeper_of (rows_at self.old.stores name.now)) }
        ensures ok { OnOk result (self.new ≡ after_giving name.now self.old) }
        ensures err { IfErr result (λ fault. self.new ≡ after_refusal fault name.now self.old) }
        ensures has { OnOk result (HasStore self.new.stores name.now) }
        ensures kept { KeepsNames self.old.stores self.new.stores }
        ensures own_names { HaveOwnNames self.new.stores }
        ensures never_falls { NeverFalls self.old.faults self.new.faults }
    {
        self.calls = self.calls.saturating_add(1);
        let Ok(slots) = open_store(self.alloc, &mut self.stores, name.as_bytes()) else {
            return Err(LoadFault::NoMemory);
        };
        if self.failing.as_slice().contains(&self.calls) {
            self.faults = self.faults.saturating_add(1);
            return Err(LoadFault::Failed);
        }
        Ok(MemoryKeeper::over(self.alloc, slots))
    }

    /// The cost is a look at each name.
    fn back(&mut self, name: &str, keeper: MemoryKeeper)
        requires { HasStore self.old.stores name.now }
        ensures after { self.new ≡ after_return name.now keeper.rows keeper.faults self.old }
        ensures spoiled { IsSpoiledBy keeper.faults self.old.spoiled self.new.spoiled }
        ensures kept { KeepsNames self.old.stores self.new.stores }
        ensures own_names { HaveOwnNames self.new.stores }
        ensures never_falls { NeverFalls self.old.spoiled self.new.spoiled }
    {
        self.spoiled = spoiled_by(keeper.fault_count(), self.spoiled);
        set_store(&mut self.stores, name.as_bytes(), keeper.into_slots());
    }
}
