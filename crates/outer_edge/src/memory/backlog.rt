//! Links in memory that wait to be dialed or accepted.
ghost use Rattle.std.specs.Prelude.{◌≡◌, ◌↔◌, ◌∷◌, [], All, IsErr, IfOk, OnOk, OnErr};
ghost use Rattle.outer_edge.specs.Faults.{NeverFalls};
ghost use Rattle.outer_edge.specs.Nets.{RaisedWhere};
ghost use Rattle.outer_edge.specs.MemoryNets.{IsUnused, new_backlog, FailsNext, GivesNone, after_giving, after_refusal, with_fault_where};

use crate::faults::counted_if;
use crate::{Failed, MemoryLink};
use std::alloc::Global;
use std::collections::VecDeque;
use std::marker::Model;
use std::mem;

// Unused links, which are given one after another. A call fails where it was told to. The first call is number 1.
#[derive(Drop)]
pub(crate) struct Backlog {
    links: VecDeque<MemoryLink>,
    calls: u64,
    failing: Vec<u64>,
    faults: u64,
}

impl Model for Backlog {
    ghost use Rattle.std.specs.Prelude.{All};
    ghost use Rattle.outer_edge.specs.MemoryNets.{BacklogState, IsUnused};

    ghost Value = { BacklogState };

    ghost view = { λ s. record {
      links = s.links.items;
      calls = s.calls;
      failing = s.failing.items;
      faults = s.faults;
    } };

    ghost invariant = { λ s. All IsUnused s.links.items };
}

impl Backlog {
    pub(crate) fn new(links: VecDeque<MemoryLink>, failing: Vec<u64>) -> Self
        requires { All IsUnused links.items }
        ensures { result ≡ new_backlog links.items failing.items }
    {
        Backlog {
            links,
            calls: 0,
            failing,
            faults: 0,
        }
    }

    // The next link.
    pub(crate) fn next(&mut self) -> Result<MemoryLink, Failed>
        ensures fails { IsErr result ↔ GivesNone self.old }
        ensures err { OnErr result (self.new ≡ after_refusal self.old) }
        ensures gave { IfOk result (λ link. self.old.links ≡ link ∷ self.new.links) }
        ensures unused { IfOk result (λ link. IsUnused link) }
        ensures after { OnOk result (self.new ≡ after_giving self.new.links self.old) }
        ensures never_falls { NeverFalls self.old.faults self.new.faults }
    {
        self.calls = self.calls.saturating_add(1);
        if !self.failing.contains(&self.calls) {
            if let Some(link) = self.links.pop_front() {
                return Ok(link);
            }
        }
        self.faults = self.faults.saturating_add(1);
        Err(Failed)
    }

    // All links that are left.
    pub(crate) fn take_all(&mut self, alloc: Global) -> Result<VecDeque<MemoryLink>, Failed>
        ensures fails { IsErr result ↔ FailsNext self.old }
        ensures err { OnErr result (self.new ≡ after_refusal self.old) }
        ensures gave { IfOk result (λ links. links.items ≡ self.old.links) }
        ensures unused { IfOk result (λ links. All IsUnused links.items) }
        ensures after { OnOk result (self.new ≡ after_giving [] self.old) }
        ensures never_falls { NeverFalls self.old.faults self.new.faults }
    {
        self.calls = self.calls.saturating_add(1);
        if self.failing.contains(&self.calls) {
            self.faults = self.faults.saturating_add(1);
            return Err(Failed);
        }
        Ok(mem::replace(&mut self.links, VecDeque::new(alloc)))
    }

    pub(crate) fn fault_count(&self) -> u64
        ensures { result ≡ self.now.faults }
    {
        self.faults
    }

    // Counts a fault of what was given, where there was one.
    pub(crate) fn count_fault_if(&mut self, has_fault: bool)
        ensures after { self.new ≡ with_fault_where has_fault self.old }
        ensures raised { RaisedWhere has_fault self.old.faults self.new.faults }
        ensures never_falls { NeverFalls self.old.faults self.new.faults }
    {
        self.faults = counted_if(has_fault, self.faults);
    }
}
