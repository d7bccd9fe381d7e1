//! A lock round a core and its trail.
ghost use Rattle.std.specs.Prelude.{◌≡◌, IfOk, OnErr};
ghost use Rattle.std.specs.Fn.{FnOnceReturnsAt};
ghost use Rattle.std.specs.List.{All};
ghost use Rattle.trail_desk.specs.Passes.{new_passes, IsPassOf, IsTrail, StandsIn, Acted, Looked};

use crate::entry::{Entry, Opening};
use crate::held::Held;
use crate::pass::Pass;
use crate::rule::{Room, Token, TrailTable};
use crate::stepping::Core;
use crate::tickets::Tickets;
use crate::tokens::{new_table, tell_opening};
use std::alloc::{AllocError, Global};
use std::marker::Model;
use std::sync::{Mutex, Wait};

/// A desk whose table has no name yet, with a pass for each of its seats.
///
/// Contracts see which desk it is: its table, and how it began.
#[derive(Drop)]
pub struct Opened<C, A, G> {
    core: C,
    table: TrailTable<C, A, G>,
    keeper: Token<C, A, G>,
    passes: Vec<Pass<C, A, G>>,
    trail: Vec<Entry<A, G>>,
}

impl<C, A, G> Model for Opened<C, A, G> {
    ghost use Rattle.trail_desk.specs.Passes.{DeskName};
    ghost use Rattle.trail_desk.specs.Opened.{IsOpened};

    ghost Value = { DeskName C };

    ghost view = { λ o. record { table = o.table.shared.table_id; opening = o.table.shared.key } };

    ghost invariant = { λ o. IsOpened o.core o.table.shared.key o.table.shared.table_id o.keeper.table_id o.keeper.me o.passes.items o.trail.items };
}

impl<C: Drop, A: Drop, G: Drop> Opened<C, A, G> {
    /// A desk round a core, with so many seats. It takes time linear in their number.
    pub fn new(alloc: Global, core: C, seats: u32) -> Result<Opened<C, A, G>, AllocError>
        ensures { IfOk result (λ opened. opened.opening ≡ record { core = core; seats = seats }) }
    {
        let opening = Opening { core, seats };
        let (table, mut keeper) = new_table(alloc, &opening)?;
        let passes = Pass::for_seats(alloc, &table, &mut keeper, seats)?;
        let Opening { core, seats: _ } = opening;
        Ok(Opened {
            core,
            table,
            keeper,
            passes,
            trail: Vec::new(alloc),
        })
    }

    /// The desk under the name of its table, with a pass for each seat from 1 on.
    pub fn named<B: Room>(self) -> (Desk<C, A, G, B>, Vec<Pass<C, A, G>>)
    where
        C: Core<A, G>,
        requires { self.table ≡ B.table }
        ensures desk { result.0 ≡ self }
        ensures passes { result.1.items ≡ new_passes self }
        ensures of_desk { All (IsPassOf result.0) result.1.items }
    {
        let Opened {
            core,
            table,
            keeper,
            passes,
            trail,
        } = self;
        let held = Held::new(core, trail, keeper.into_badge());
        let desk = Desk {
            held: Mutex::new(held),
            table,
        };
        (desk, passes)
    }
}

/// A locked core whose state is, whenever the lock is free, the outcome of its stored trail.
///
/// Contracts see which desk it is: its table, and how it began. The trail is kept whole, so memory alone bounds it.
#[derive(Drop)]
pub struct Desk<C: Core<A, G>, A, G, B: Room> {
    held: Mutex<Held<C, A, G, B>>,
    table: TrailTable<C, A, G>,
}

impl<C: Core<A, G>, A, G, B: Room> Model for Desk<C, A, G, B> {
    ghost use Rattle.std.specs.Prelude.{◌≡◌};
    ghost use Rattle.trail_desk.specs.Passes.{DeskName};

    ghost Value = { DeskName C };

    ghost view = { λ d. record { table = d.table.shared.table_id; opening = d.table.shared.key } };

    ghost invariant = { λ d. (d.table.shared.table_id ≡ B.table) × (d.table.shared.table_id.words ≡ 1) };
}

impl<C: Core<A, G>, A: Drop, G: Drop, B: Room> Desk<C, A, G, B> {
    /// Makes one step of the pass's seat, and gives what it gave. Want of memory is the only refusal.
    pub fn act<R: Wait>(
        &self,
        rt: &R,
        pass: &mut Pass<C, A, G>,
        tickets: &Tickets,
        act: A,
    ) -> Result<G, AllocError>
        requires of_desk { IsPassOf self.now pass.old }
        requires takes { C.takes self.now.opening.core act }
        ensures ok { IfOk result (λ gave. Acted C.steps self.now.opening pass.old act gave pass.new) }
        ensures err { OnErr result (pass.new ≡ pass.old) }
    {
        self.held.lock(rt).act(rt, &self.table, pass, tickets, act)
    }

    /// Looks at the core, which is no step: the state is that of a front of the trail which begins with all that the
    /// pass had seen.
    pub fn look<R: Wait, X, F: FnOnce(&C) -> X>(
        &self,
        rt: &R,
        pass: &mut Pass<C, A, G>,
        look: F,
    ) -> X
        requires of_desk { IsPassOf self.now pass.old }
        requires callable { F.IsAlwaysCallable look }
        ensures { (core : C) × Looked C.steps self.now.opening pass.old pass.new core × FnOnceReturnsAt F.FnOnce look core result }
    {
        self.held.lock(rt).look(&self.table, pass, look)
    }

    /// The core and the whole trail, once no thread has the desk any more. It takes time linear in the number of passes.
    pub fn close(self, passes: Vec<Pass<C, A, G>>) -> (C, Vec<Entry<A, G>>)
        requires of_desk { All (IsPassOf self) passes.items }
        ensures trail { IsTrail C.steps self.opening result.1.items result.0 }
        ensures own { All (StandsIn result.1.items) passes.items }
    {
        let Desk { held, table } = self;
        let mut held = held.into_inner();
        let mut token = tell_opening(&table);
        held.read(&table, &mut token);
        held.tell_all(&table, passes);
        held.into_parts()
    }
}
