//! Items by ascending version, of which each keeps its slot.
ghost use Rattle.std.specs.Prelude.{◌≡◌, ℕ, ◌<◌, ◌≤◌, ◌+◌, ◌-◌, ◌==◌, [], ◌∷◌, ◌++◌, length, Some, IfOk, IsOk, OnOk, OnErr};
ghost use Rattle.version_chain.specs.Chains.{without_slot, item_at, slots_since, count_since, AreAscending, IsAbove, AreSlots, greatest};
ghost use Rattle.version_chain.specs.Nodes.{IsFound};

use crate::links::LinkedSlots;
use std::alloc::Global;
use std::marker::Model;
use std::mem;
use wire_fields::{List, NoMemory};

// An item with its version.
#[derive(Drop)]
struct Node<T> {
    version: u64,
    item: T,
}

// The first of the items above a mark, if there is one, and how many they are.
#[derive(Drop)]
struct Above {
    first: Option<usize>,
    count: usize,
}

/// Items by ascending version. An item keeps its slot when it is replaced by one of a greater version, which moves it
/// to the end.
///
/// Contracts see the entries in their order, and how many more there is room for. Only `reserve` and `since` take
/// memory.
#[derive(Drop)]
pub struct Chain<T> {
    nodes: Vec<Node<T>>,
    order: LinkedSlots,
}

impl<T> Model for Chain<T> {
    ghost use Rattle.version_chain.specs.Chains.{Chained};

    ghost Value = { Chained T };

    ghost use Rattle.version_chain.specs.Nodes.{chained, IsChained};

    ghost view = { chained };

    ghost invariant = { IsChained };
}

impl<T> Chain<T> {
    /// No items, and room for none. It takes no memory.
    pub fn new(alloc: Global) -> Chain<T>
        ensures { result ≡ record { entries = []; spare = 0 } }
    {
        Chain {
            nodes: Vec::new(alloc),
            order: LinkedSlots::new(alloc),
        }
    }

    /// Makes room for so many more items, in time linear in their number over many calls.
    pub fn reserve(&mut self, more: usize) -> Result<(), NoMemory>
        ensures room { OnOk result (more ≤ self.new.spare) }
        ensures grows { self.old.spare ≤ self.new.spare }
        ensures entries { self.new.entries ≡ self.old.entries }
        ensures succeeds { more ≤ self.old.spare → IsOk result }
    {
        let Some(len) = self.nodes.len().checked_add(more) else {
            return Err(NoMemory);
        };
        self.nodes.reserve(more)?;
        match len.checked_sub(1) {
            Some(slot) => self.order.reserve(slot),
            None => Ok(()),
        }
    }

    /// Adds an item of a version above all others, for which there is room, and gives its slot. It takes constant time.
    pub fn add(&mut self, version: u64, item: T) -> usize
        requires spare { 0 < self.old.spare }
        requires above { IsAbove version self.old.entries }
        ensures slot { result ≡ length self.old.entries }
        ensures added { self.new ≡ record {
          entries = self.old.entries ++ (record { slot = result; version = version; item = item }) ∷ [];
          spare = self.old.spare - 1;
        } }
    {
        let slot = self.nodes.len();
        self.nodes.push_reserved(Node { version, item });
        self.order.append(slot);
        slot
    }

    /// Replaces the item in a slot by one of a version above all others, which moves to the end, and gives the item back
    /// that stood there. It takes constant time.
    pub fn touch(&mut self, slot: usize, version: u64, item: T) -> T
        requires live { slot < length self.old.entries }
        requires above { IsAbove version self.old.entries }
        ensures replaced { item_at slot self.old.entries ≡ Some result }
        ensures moved { self.new ≡ record self.old {
          entries = without_slot slot self.old.entries ++ (record { slot = slot; version = version; item = item }) ∷ [];
        } }
    {
        self.order.unlink(slot);
        self.order.append(slot);
        let node = mem::replace(&mut self.nodes[slot], Node { version, item });
        let Node { item, .. } = node;
        item
    }

    /// The item in a slot.
    pub fn item(&self, slot: usize) -> &T
        requires { slot < length self.now.entries }
        ensures { item_at slot self.now.entries ≡ Some result.now }
    {
        &self.nodes[slot].item
    }

    /// How many items there are.
    pub fn len(&self) -> usize
        ensures len { result ≡ length self.now.entries }
        ensures ascending { AreAscending self.now.entries }
        ensures slots { AreSlots self.now.entries }
    {
        self.nodes.len()
    }

    pub fn is_empty(&self) -> bool
        ensures { result ≡ (length self.now.entries == 0) }
    {
        self.nodes.is_empty()
    }

    /// The greatest version, 0 where there is no item.
    pub fn last_version(&self) -> u64
        ensures greatest { result ≡ greatest self.now.entries }
        ensures above { (version : ℕ) → result < version → IsAbove version self.now.entries }
    {
        match self.order.last() {
            Some(slot) => self.nodes[slot].version,
            None => 0,
        }
    }

    // The first of the items above a mark, and how many they are. It goes back from the end to the mark.
    fn above(&self, mark: u64) -> Above
        ensures { IsFound mark self.now.entries result }
    {
        let mut above = Above {
            first: None,
            count: 0,
        };
        let mut place = self.order.last();
        while let Some(slot) = place {
            if self.nodes[slot].version <= mark {
                return above;
            }
            above.first = place;
            above.count += 1;
            place = self.order.before(slot);
        }
        above
    }

    /// How many items are above a mark. It takes time linear in their number.
    pub fn count_above(&self, mark: u64) -> usize
        ensures { result ≡ count_since mark self.now.entries }
    {
        self.above(mark).count
    }

    /// The slots of the first of the items above a mark, at most so many. It takes time linear in the number of all
    /// that are above the mark, whatever the number of those below, and memory for the slots that it gives.
    pub fn since(&self, mark: u64, max: usize) -> Result<List<usize>, NoMemory>
        ensures { IfOk result (λ slots. slots ≡ slots_since mark max self.now.entries) }
    {
        let above = self.above(mark);
        let count = above.count.min(max);
        let mut slots = Vec::with_capacity(*self.nodes.allocator(), count)?;
        let mut place = above.first;
        while let Some(slot) = place {
            if slots.len() == count {
                break;
            }
            slots.push_reserved(slot);
            place = self.order.after(slot);
        }
        Ok(List::from_vec(slots))
    }
}
