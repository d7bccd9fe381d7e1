//! What lies under a desk's lock: the core, its trail, and the keeper of the table that counts the trail.
ghost use Rattle.std.specs.Prelude.{◌≡◌, [], ◌∷◌, ◌++◌, Some, None, IfOk, OnErr};
ghost use Rattle.std.specs.Fn.{FnOnceReturnsAt};
ghost use Rattle.std.specs.List.{All};
ghost use Rattle.trail_desk.specs.declared.entry.Opening.{Opening};
ghost use Rattle.trail_desk.specs.Trails.{IsReplay, TicketsAscend};
ghost use Rattle.trail_desk.specs.Views.{keeping};
ghost use Rattle.trail_desk.specs.Rules.{IsTold};
ghost use Rattle.trail_desk.specs.Held.{whole_now};
ghost use Rattle.trail_desk.specs.Passes.{IsPassOf, IsTrail, StandsIn, Acted, Looked};

use crate::entry::{Entry, Opening};
use crate::pass::Pass;
use crate::rule::{Keeper, Room, Token, TrailTable};
use crate::stepping::Core;
use crate::tickets::Tickets;
use crate::tokens::{add_entry, give_keeper, see_trail, take_keeper};
use atomic_table::Badge;
use std::alloc::AllocError;
use std::collections::VecDeque;
use std::marker::{Brand, Model, PhantomData};
use std::mem;
use std::sync::Wait;

// The core and its trail. Who has the lock has the keeper, without whom the table's word cannot change.
#[derive(Drop)]
pub(crate) struct Held<C: Core<A, G>, A, G, B: Room> {
    core: C,
    trail: Vec<Entry<A, G>>,
    last: u64,
    keeper: Keeper<C, A, G>,
    room: PhantomData<B>,
}

impl<C: Core<A, G>, A, G, B: Room> Model for Held<C, A, G, B> {
    ghost use Rattle.trail_desk.specs.Held.{HeldState, IsHeld};

    ghost Value = { HeldState C A G };

    ghost view = { λ h. record { core = h.core; trail = h.trail.items } };

    ghost invariant = { λ h. IsHeld C.steps B.table h.core h.trail.items h.last h.keeper.table_id h.keeper.views };
}

impl<C: Core<A, G>, A: Drop, G: Drop, B: Room> Held<C, A, G, B> {
    // No step was made.
    pub(crate) fn new(core: C, trail: Vec<Entry<A, G>>, keeper: Keeper<C, A, G>) -> Held<C, A, G, B>
        requires keeper { keeper.table_id ≡ B.table }
        requires trail { trail.items ≡ [] }
        requires knows { (opening : Opening C) × (opening.core ≡ core) × (keeper.views ≡ keeping (Some (whole_now opening [])) ∷ []) }
        ensures { result ≡ record { core = core; trail = [] } }
    {
        Held {
            core,
            trail,
            last: 0,
            keeper,
            room: PhantomData,
        }
    }

    // The token takes the keeper's view in, and gives it back: what the rule says of the token's view is read.
    pub(crate) fn read(&mut self, table: &TrailTable<C, A, G>, token: &mut Token<C, A, G>)
        requires room { (table.now.shared.table_id ≡ B.table) × (table.now.shared.table_id.words ≡ 1) }
        requires table { token.old.table_id ≡ B.table }
        requires token { (token.old.me.0.whole ≡ None) × (token.old.me.1 ≡ []) }
        ensures held { self.new ≡ self.old }
        ensures token { (token.new.me ≡ token.old.me) × (token.new.table_id ≡ token.old.table_id) }
        ensures told { (opening : Opening C) × IsTrail C.steps opening self.old.trail self.old.core × IsTold token.old.me.0 (whole_now opening self.old.trail) }
    {
        let keeper = mem::replace(&mut self.keeper, Badge::blank());
        take_keeper(table, token, keeper);
        self.keeper = give_keeper(table, token);
    }

    // What the trail says of the pass, once no more steps come.
    pub(crate) fn tell(&mut self, table: &TrailTable<C, A, G>, pass: &mut Pass<C, A, G>)
        requires room { (table.now.shared.table_id ≡ B.table) × (table.now.shared.table_id.words ≡ 1) }
        requires table { pass.old.table ≡ B.table }
        ensures held { self.new ≡ self.old }
        ensures pass { pass.new ≡ pass.old }
        ensures stands { StandsIn self.old.trail pass.old }
    {
        self.read(table, &mut pass.token);
    }

    // The same of several passes.
    pub(crate) fn tell_all(&mut self, table: &TrailTable<C, A, G>, passes: Vec<Pass<C, A, G>>)
        requires room { (table.now.shared.table_id ≡ B.table) × (table.now.shared.table_id.words ≡ 1) }
        requires table { All (λ pass. pass.table ≡ B.table) passes.items }
        ensures held { self.new ≡ self.old }
        ensures stand { All (StandsIn self.old.trail) passes.items }
    {
        let mut waiting = VecDeque::from_vec(passes);
        'passes: while let Some(mut pass) = waiting.pop_front() {
            self.tell(table, &mut pass);
        }
    }

    // Shows the state that the trail leads to.
    pub(crate) fn look<X, F: FnOnce(&C) -> X>(
        &mut self,
        table: &TrailTable<C, A, G>,
        pass: &mut Pass<C, A, G>,
        look: F,
    ) -> X
        requires room { (table.now.shared.table_id ≡ B.table) × (table.now.shared.table_id.words ≡ 1) }
        requires of_desk { IsPassOf (record { table = table.now.shared.table_id; opening = table.now.shared.key }) pass.old }
        requires callable { F.IsAlwaysCallable look }
        ensures { (core : C) × Looked C.steps table.now.shared.key pass.old pass.new core × FnOnceReturnsAt F.FnOnce look core result }
    {
        let keeper = mem::replace(&mut self.keeper, Badge::blank());
        take_keeper(table, &mut pass.token, keeper);
        see_trail(table, &mut pass.token);
        self.keeper = give_keeper(table, &mut pass.token);
        look(&self.core)
    }

    // Makes a step of the pass's seat.
    pub(crate) fn act<R: Wait>(
        &mut self,
        rt: &R,
        table: &TrailTable<C, A, G>,
        pass: &mut Pass<C, A, G>,
        tickets: &Tickets,
        act: A,
    ) -> Result<G, AllocError>
        requires room { (table.now.shared.table_id ≡ B.table) × (table.now.shared.table_id.words ≡ 1) }
        requires of_desk { IsPassOf (record { table = table.now.shared.table_id; opening = table.now.shared.key }) pass.old }
        requires takes { C.takes table.now.shared.key.core act }
        ensures ok { IfOk result (λ gave. Acted C.steps table.now.shared.key pass.old act gave pass.new) }
        ensures err { OnErr result (pass.new ≡ pass.old) }
    {
        self.trail.reserve(1)?;
        let ticket = tickets.draw_above(rt, self.last.max(pass.last));
        let keeper = mem::replace(&mut self.keeper, Badge::blank());
        take_keeper(table, &mut pass.token, keeper);
        let Ok((gave, told)) = self.core.step(&act) else {
            self.keeper = give_keeper(table, &mut pass.token);
            return Err(AllocError);
        };
        let number = pass.calls + 1;
        let entry = Entry {
            seat: pass.seat,
            number,
            ticket,
            act,
            gave,
        };
        add_entry::<C, A, G, Brand>(table, &mut pass.token, &entry);
        self.keeper = give_keeper(table, &mut pass.token);
        self.trail.push_reserved(entry);
        self.last = ticket;
        pass.calls = number;
        pass.last = ticket;
        Ok(told)
    }

    // The core and the trail.
    pub(crate) fn into_parts(self) -> (C, Vec<Entry<A, G>>)
        ensures core { result.0 ≡ self.core }
        ensures trail { result.1.items ≡ self.trail }
    {
        let Held {
            core,
            trail,
            last: _,
            keeper: _,
            room: _,
        } = self;
        (core, trail)
    }
}
