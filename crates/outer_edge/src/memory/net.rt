//! A net over links in memory.
ghost use Rattle.std.specs.Prelude.{◌≡◌, ◌↔◌, ◌∷◌, [], All, map, Some, IsErr, IfOk, OnOk, OnErr};
ghost use Rattle.std.specs.Option.{option_map};
ghost use Rattle.outer_edge.specs.Faults.{NeverFalls};
ghost use Rattle.outer_edge.specs.Nets.{RaisedWhere, AddsPast, IsPortOf, is_raised};
ghost use Rattle.outer_edge.specs.MemoryNets.{IsUnused, FailsNext, GivesNone, new_net, door_of, after_giving, after_refusal, after_dial, after_listen, after_shut, with_link, past_link, is_faulty};

use super::backlog::Backlog;
use super::past::PastLinks;
use crate::{Failed, MemoryDoor, MemoryLink, Net, NoMemory};
use std::alloc::Global;
use std::collections::VecDeque;
use std::marker::Model;
use std::mem;

/// A net over links in memory. It gives them in order, but where it was told to fail: dials and listens are numbered
/// together, and the first is number 1. After it is made no call takes memory.
#[derive(Drop)]
pub struct MemoryNet {
    alloc: Global,
    waiting: Backlog,
    past: PastLinks,
    port: Option<u16>,
    door_failing: Vec<u64>,
    door_past: PastLinks,
}

impl Model for MemoryNet {
    ghost use Rattle.std.specs.Prelude.{◌≡◌};
    ghost use Rattle.outer_edge.specs.MemoryNets.{NetState, no_past};

    ghost Value = { NetState };

    ghost view = { λ net. record {
      waiting = net.waiting;
      past = net.past;
      used_port = net.port;
      door_failing = net.door_failing.items;
      door_room = net.door_past.room;
    } };

    ghost invariant = { λ net. net.door_past ≡ no_past net.door_past.room };
}

impl MemoryNet {
    /// All the room is taken now: the net and its first door have room for as many past links as there are links.
    /// `failing` has the numbers of the dials and listens that fail, `door_failing` those of the first door's accepts.
    pub fn new(
        alloc: Global,
        links: Vec<MemoryLink>,
        failing: Vec<u64>,
        door_failing: Vec<u64>,
    ) -> Result<Self, NoMemory>
        requires { All IsUnused links.items }
        ensures { IfOk result (λ net. net ≡ new_net links.items failing.items door_failing.items) }
    {
        let room = links.len();
        Ok(MemoryNet {
            alloc,
            waiting: Backlog::new(VecDeque::from_vec(links), failing),
            past: PastLinks::new(alloc, room)?,
            port: None,
            door_failing,
            door_past: PastLinks::new(alloc, room)?,
        })
    }

    /// The links that were hung up, in order, where they are told.
    pub fn past_links(&self) -> Option<&[MemoryLink]>
        ensures { option_map (λ links. map past_link links.now) result ≡ self.now.past.told }
    {
        self.past.links()
    }

    /// How often a call has failed, and how many doors were shut with such a fault.
    pub fn fault_count(&self) -> u64
        ensures { result ≡ self.now.waiting.faults }
    {
        self.waiting.fault_count()
    }

    /// How many links were hung up with a fault, and how many doors were shut that had such links.
    pub fn broken_count(&self) -> u64
        ensures { result ≡ self.now.past.broken }
    {
        self.past.broken_count()
    }
}

impl Net for MemoryNet {
    type Link = MemoryLink;

    type Door = MemoryDoor;

    ghost past = { λ net. net.past.told };

    ghost faults = { λ net. net.waiting.faults };

    ghost broken = { λ net. net.past.broken };

    ghost port = { λ net. net.used_port };

    /// Gives the next link. Where none is left, that is a fault.
    fn dial(&mut self, number: u16) -> Result<MemoryLink, Failed>
        requires { IsPortOf self.old.used_port number }
        ensures fails { IsErr result ↔ GivesNone self.old.waiting }
        ensures err { OnErr result (self.new ≡ after_dial number (after_refusal self.old.waiting) self.old) }
        ensures gave { IfOk result (λ link. self.old.waiting.links ≡ link ∷ self.new.waiting.links) }
        ensures unused { IfOk result (λ link. IsUnused link) }
        ensures after { OnOk result
            (self.new ≡ after_dial number (after_giving self.new.waiting.links self.old.waiting) self.old) }
        ensures never_falls { NeverFalls self.old.waiting.faults self.new.waiting.faults }
    {
        self.port = Some(number);
        self.waiting.next()
    }

    /// Gives a door with all links that are left, none of which the net has then.
    fn listen(&mut self, number: u16) -> Result<MemoryDoor, Failed>
        requires { IsPortOf self.old.used_port number }
        ensures fails { IsErr result ↔ FailsNext self.old.waiting }
        ensures err { OnErr result (self.new ≡ after_dial number (after_refusal self.old.waiting) self.old) }
        ensures door { IfOk result (λ door. door ≡ door_of self.old) }
        ensures after { OnOk result (self.new ≡ after_listen number self.old) }
        ensures never_falls { NeverFalls self.old.waiting.faults self.new.waiting.faults }
    {
        self.port = Some(number);
        let links = self.waiting.take_all(self.alloc)?;
        let failing = mem::replace(&mut self.door_failing, Vec::new(self.alloc));
        let past = mem::replace(&mut self.door_past, PastLinks::without_room(self.alloc));
        Ok(MemoryDoor::over(links, failing, past))
    }

    /// Where there is no room for the link, the net tells no past links from then on.
    fn hang_up(&mut self, link: MemoryLink)
        ensures after { self.new ≡ record self.old { past = with_link link self.old.past } }
        ensures broken { RaisedWhere (is_faulty link) self.old.past.broken self.new.past.broken }
        ensures past { AddsPast (Some (past_link link ∷ [])) self.old.past.told self.new.past.told }
        ensures never_falls { NeverFalls self.old.past.broken self.new.past.broken }
    {
        self.past.add_link(link);
    }

    /// Where there is no room for the past links of the door, or it tells none, the net tells none from then on.
    fn shut(&mut self, door: MemoryDoor)
        ensures after { self.new ≡ after_shut door self.old }
        ensures faults { RaisedWhere (is_raised door.waiting.faults) self.old.waiting.faults self.new.waiting.faults }
        ensures broken { RaisedWhere (is_raised door.past.broken) self.old.past.broken self.new.past.broken }
        ensures past { AddsPast door.past.told self.old.past.told self.new.past.told }
        ensures never_falls { NeverFalls self.old.waiting.faults self.new.waiting.faults }
        ensures broken_never_falls { NeverFalls self.old.past.broken self.new.past.broken }
    {
        let (faults, past) = door.into_parts();
        self.waiting.count_fault_if(faults > 0);
        self.past.add_door(past);
    }
}
