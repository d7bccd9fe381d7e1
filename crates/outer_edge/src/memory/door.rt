//! A door over links in memory.
ghost use Rattle.std.specs.Prelude.{◌≡◌, ◌↔◌, ◌∷◌, [], All, map, Some, IsErr, IfOk, OnOk, OnErr};
ghost use Rattle.std.specs.Option.{option_map};
ghost use Rattle.outer_edge.specs.Faults.{NeverFalls};
ghost use Rattle.outer_edge.specs.Nets.{RaisedWhere, AddsPast};
ghost use Rattle.outer_edge.specs.MemoryNets.{IsUnused, GivesNone, new_backlog, with_link, after_giving, after_refusal, past_link, is_faulty};

use super::backlog::Backlog;
use super::past::PastLinks;
use crate::{Door, Failed, MemoryLink};
use std::collections::VecDeque;
use std::marker::Model;

/// A door of a [`MemoryNet`](crate::MemoryNet). It gives its links in order, but where it was told to fail; the first
/// call is number 1. No call takes memory.
#[derive(Drop)]
pub struct MemoryDoor {
    waiting: Backlog,
    past: PastLinks,
}

impl Model for MemoryDoor {
    ghost use Rattle.outer_edge.specs.MemoryNets.{DoorState};

    ghost Value = { DoorState };

    ghost view = { λ door. record { waiting = door.waiting; past = door.past } };
}

impl MemoryDoor {
    // A door that gives these links.
    pub(crate) fn over(links: VecDeque<MemoryLink>, failing: Vec<u64>, past: PastLinks) -> Self
        requires { All IsUnused links.items }
        ensures waiting { result.waiting ≡ new_backlog links.items failing.items }
        ensures past { result.past ≡ past }
    {
        MemoryDoor {
            waiting: Backlog::new(links, failing),
            past,
        }
    }

    // How many calls failed, and the links that were hung up.
    pub(crate) fn into_parts(self) -> (u64, PastLinks)
        ensures faults { result.0 ≡ self.waiting.faults }
        ensures past { result.1 ≡ self.past }
    {
        (self.fault_count(), self.past)
    }

    /// The links that were hung up, in order, where they are told.
    pub fn past_links(&self) -> Option<&[MemoryLink]>
        ensures { option_map (λ links. map past_link links.now) result ≡ self.now.past.told }
    {
        self.past.links()
    }

    /// How often a call has failed.
    pub fn fault_count(&self) -> u64
        ensures { result ≡ self.now.waiting.faults }
    {
        self.waiting.fault_count()
    }

    /// How many links were hung up with a fault.
    pub fn broken_count(&self) -> u64
        ensures { result ≡ self.now.past.broken }
    {
        self.past.broken_count()
    }
}

impl Door for MemoryDoor {
    type Link = MemoryLink;

    ghost past = { λ door. door.past.told };

    ghost faults = { λ door. door.waiting.faults };

    ghost broken = { λ door. door.past.broken };

    /// Gives the next link. Where none is left, that is a fault.
    fn accept(&mut self) -> Result<MemoryLink, Failed>
        ensures fails { IsErr result ↔ GivesNone self.old.waiting }
        ensures err { OnErr result (self.new ≡ record self.old { waiting = after_refusal self.old.waiting }) }
        ensures gave { IfOk result (λ link. self.old.waiting.links ≡ link ∷ self.new.waiting.links) }
        ensures unused { IfOk result (λ link. IsUnused link) }
        ensures after { OnOk result
            (self.new ≡ record self.old { waiting = after_giving self.new.waiting.links self.old.waiting }) }
        ensures never_falls { NeverFalls self.old.waiting.faults self.new.waiting.faults }
    {
        self.waiting.next()
    }

    /// Where there is no room for the link, the door tells no past links from then on.
    fn hang_up(&mut self, link: MemoryLink)
        ensures after { self.new ≡ record self.old { past = with_link link self.old.past } }
        ensures broken { RaisedWhere (is_faulty link) self.old.past.broken self.new.past.broken }
        ensures past { AddsPast (Some (past_link link ∷ [])) self.old.past.told self.new.past.told }
        ensures never_falls { NeverFalls self.old.past.broken self.new.past.broken }
    {
        self.past.add_link(link);
    }
}
