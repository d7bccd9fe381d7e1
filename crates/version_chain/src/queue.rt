//! A queue of slots, of which each may leave from its place.
ghost use Rattle.std.specs.Prelude.{◌≡◌, ◌+◌, ◌<◌, ◌≤◌, ◌==◌, max, [], ◌∷◌, ◌++◌, length, IsOk, OnOk, OnErr};
ghost use Rattle.version_chain.specs.Slots.{IsAmong, without, first_of, after};

use crate::links::LinkedSlots;
use std::alloc::Global;
use std::marker::Model;
use wire_fields::NoMemory;

/// Slots in the order of their pushes, of which each may leave from its place. Only `reserve` takes memory, and no call
/// goes through the queue.
///
/// Contracts see the slots, and how many have room.
#[derive(Drop)]
pub struct DueQueue {
    slots: LinkedSlots,
}

impl Model for DueQueue {
    ghost use Rattle.version_chain.specs.Queues.{Queued};

    ghost Value = { Queued };

    ghost view = { λ queue. queue.slots };
}

impl DueQueue {
    /// No slots, and room for none. It takes no memory.
    pub fn new(alloc: Global) -> DueQueue
        ensures { result ≡ record { slots = []; room = 0 } }
    {
        DueQueue {
            slots: LinkedSlots::new(alloc),
        }
    }

    /// Makes room for this slot, and for each below it. It takes time linear in the slots that get room, over many
    /// calls, and constant time where this one has room.
    pub fn reserve(&mut self, slot: usize) -> Result<(), NoMemory>
        ensures room { OnOk result (slot < self.new.room) }
        ensures grows { self.old.room ≤ self.new.room }
        ensures most { self.new.room ≤ max self.old.room (slot + 1) }
        ensures slots { self.new.slots ≡ self.old.slots }
        ensures succeeds { slot < self.old.room → IsOk result }
        ensures err { OnErr result (self.new ≡ self.old) }
    {
        self.slots.reserve(slot)
    }

    /// Puts a slot that has room, and is not queued, to the end.
    pub fn push(&mut self, slot: usize)
        requires room { slot < self.old.room }
        requires not_queued { ¬ IsAmong slot self.old.slots }
        ensures { self.new ≡ record self.old { slots = self.old.slots ++ slot ∷ [] } }
    {
        self.slots.append(slot);
    }

    /// Takes a queued slot out of its place.
    pub fn remove(&mut self, slot: usize)
        requires { IsAmong slot self.old.slots }
        ensures { self.new ≡ record self.old { slots = without slot self.old.slots } }
    {
        self.slots.unlink(slot);
    }

    /// The slot that was pushed first of those that are queued.
    pub fn first(&self) -> Option<usize>
        ensures { result ≡ first_of self.now.slots }
    {
        self.slots.first()
    }

    /// The slot behind this queued one; `None` exactly behind the last.
    pub fn after(&self, slot: usize) -> Option<usize>
        requires { IsAmong slot self.now.slots }
        ensures { result ≡ after slot self.now.slots }
    {
        self.slots.after(slot)
    }

    /// How many slots are queued.
    pub fn len(&self) -> usize
        ensures { result ≡ length self.now.slots }
    {
        self.slots.len()
    }

    pub fn is_empty(&self) -> bool
        ensures { result ≡ (length self.now.slots == 0) }
    {
        self.slots.len() == 0
    }
}
