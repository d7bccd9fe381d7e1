//! Links in memory that were hung up.
ghost use Rattle.std.specs.Prelude.{◌≡◌, ◌∷◌, [], map, Some, IfOk};
ghost use Rattle.std.specs.Option.{option_map};
ghost use Rattle.outer_edge.specs.Faults.{NeverFalls};
ghost use Rattle.outer_edge.specs.Nets.{RaisedWhere, AddsPast, is_raised};
ghost use Rattle.outer_edge.specs.MemoryNets.{no_past, is_faulty, past_link, with_link, with_door};

use crate::faults::counted_if;
use crate::{MemoryLink, NoMemory};
use std::alloc::Global;
use std::marker::Model;

// Links that were hung up, with room for so many. Where there was no room for one, they are told no more.
#[derive(Drop)]
pub(crate) struct PastLinks {
    links: Vec<MemoryLink>,
    room: usize,
    is_told: bool,
    broken: u64,
}

impl Model for PastLinks {
    ghost use Rattle.std.specs.Prelude.{◌≤◌, cond, map, Some, None, vec_len, vec_capacity};
    ghost use Rattle.outer_edge.specs.MemoryNets.{PastState, past_link};

    ghost Value = { PastState };

    ghost view = { λ s. record {
      told = cond s.is_told (Some (map past_link s.links.items)) None;
      room = s.room;
      broken = s.broken;
    } };

    ghost invariant = { λ s. (vec_len s.links ≤ s.room) × (s.room ≤ vec_capacity s.links) };
}

impl PastLinks {
    // All the room is taken now, so that no later call wants memory.
    pub(crate) fn new(alloc: Global, room: usize) -> Result<Self, NoMemory>
        ensures { IfOk result (λ past. past ≡ no_past room) }
    {
        Ok(PastLinks {
            links: Vec::with_capacity(alloc, room)?,
            room,
            is_told: true,
            broken: 0,
        })
    }

    // It has no room, and takes no memory.
    pub(crate) fn without_room(alloc: Global) -> Self
        ensures { result ≡ no_past 0 }
    {
        PastLinks {
            links: Vec::new(alloc),
            room: 0,
            is_told: true,
            broken: 0,
        }
    }

    pub(crate) fn links(&self) -> Option<&[MemoryLink]>
        ensures { option_map (λ links. map past_link links.now) result ≡ self.now.told }
    {
        if self.is_told {
            Some(&self.links)
        } else {
            None
        }
    }

    pub(crate) fn broken_count(&self) -> u64
        ensures { result ≡ self.now.broken }
    {
        self.broken
    }

    // Adds a link.
    pub(crate) fn add_link(&mut self, link: MemoryLink)
        ensures after { self.new ≡ with_link link self.old }
        ensures broken { RaisedWhere (is_faulty link) self.old.broken self.new.broken }
        ensures told { AddsPast (Some (past_link link ∷ [])) self.old.told self.new.told }
        ensures never_falls { NeverFalls self.old.broken self.new.broken }
    {
        self.broken = counted_if(link.has_fault(), self.broken);
        if self.links.len() < self.room {
            self.links.push(link).unwrap();
        } else {
            self.is_told = false;
        }
    }

    // Adds those of a door that was shut.
    pub(crate) fn add_door(&mut self, mut door: PastLinks)
        ensures after { self.new ≡ with_door door self.old }
        ensures broken { RaisedWhere (is_raised door.broken) self.old.broken self.new.broken }
        ensures told { AddsPast door.told self.old.told self.new.told }
        ensures never_falls { NeverFalls self.old.broken self.new.broken }
    {
        self.broken = counted_if(door.broken > 0, self.broken);
        if door.is_told && door.links.len() <= self.room - self.links.len() {
            self.links.append(&mut door.links).unwrap();
        } else {
            self.is_told = false;
        }
    }
}
