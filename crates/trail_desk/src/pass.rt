//! A thread's right to call a desk.
ghost use Rattle.std.specs.Prelude.{◌≡◌, [], Some, max, IfOk, OnOk};
ghost use Rattle.trail_desk.specs.Views.{first_view, keeping, sitting};
ghost use Rattle.trail_desk.specs.Held.{whole_now};
ghost use Rattle.trail_desk.specs.Passes.{new_pass, new_passes};

use crate::rule::{Token, TrailTable};
use crate::tokens::make_seat;
use std::alloc::{AllocError, Global};
use std::marker::Model;

/// A thread's right to call one desk, from one seat of it. A call takes it by `&mut`, so its calls have an order.
///
/// Contracts see its desk's table and opening, its seat, the number of its calls, the last ticket, the front of the
/// trail that it has seen, and its own steps.
#[derive(Drop)]
pub struct Pass<C, A, G> {
    pub(crate) seat: u32,
    pub(crate) calls: u64,
    pub(crate) last: u64,
    pub(crate) token: Token<C, A, G>,
}

impl<C, A, G> Model for Pass<C, A, G> {
    ghost use Rattle.trail_desk.specs.Passes.{PassState};
    ghost use Rattle.trail_desk.specs.Held.{IsPass};
    ghost use Rattle.trail_desk.specs.Views.{seen_of, own_of};

    ghost Value = { PassState C A G };

    ghost view = { λ p. record {
      table = p.token.table_id;
      opening = p.token.me.0.opening;
      seat = p.seat;
      calls = p.calls;
      last = p.last;
      seen = seen_of p.token.me.0.part;
      own = own_of p.token.me.0.part;
    } };

    ghost invariant = { λ p. IsPass p.seat p.calls p.token.me };
}

impl<C, A, G> Pass<C, A, G> {
    // A pass that has made no call.
    fn new(seat: u32, token: Token<C, A, G>) -> Pass<C, A, G>
        requires { token.me ≡ (sitting token.me.0.opening (Some (record { seat = seat; seen = []; own = [] })), []) }
        ensures table { result.table ≡ token.table_id }
        ensures opening { result.opening ≡ token.me.0.opening }
        ensures new { result ≡ record { table = result.table; opening = result.opening; seat = seat; calls = 0; last = 0; seen = []; own = [] } }
    {
        Pass {
            seat,
            calls: 0,
            last: 0,
            token,
        }
    }

    // A pass for each seat of a desk, which the keeper makes.
    pub(crate) fn for_seats(
        alloc: Global,
        table: &TrailTable<C, A, G>,
        keeper: &mut Token<C, A, G>,
        seats: u32,
    ) -> Result<Vec<Pass<C, A, G>>, AllocError>
        requires words { table.now.shared.table_id.words ≡ 1 }
        requires table { keeper.old.table_id ≡ table.now.shared.table_id }
        requires keeper { keeper.old.me ≡ (first_view table.now.shared.key, []) }
        requires seats { seats ≡ table.now.shared.key.seats }
        ensures table { keeper.new.table_id ≡ keeper.old.table_id }
        ensures keeper { OnOk result (keeper.new.me ≡ (keeping (Some (whole_now table.now.shared.key [])), [])) }
        ensures passes { IfOk result (λ passes. passes.items ≡ new_passes (record { table = table.now.shared.table_id; opening = table.now.shared.key })) }
    {
        let mut passes = Vec::new(alloc);
        for made in 0..seats {
            let token = make_seat(table, keeper);
            passes.push(Pass::new(made + 1, token))?;
        }
        Ok(passes)
    }

    /// The number of its seat, from 1.
    pub fn seat(&self) -> u32
        ensures { result ≡ self.now.seat }
    {
        self.seat
    }

    /// How many steps it made.
    pub fn calls(&self) -> u64
        ensures { result ≡ self.now.calls }
    {
        self.calls
    }

    /// The ticket of its last step, or a greater one that it was raised to.
    pub fn last(&self) -> u64
        ensures { result ≡ self.now.last }
    {
        self.last
    }

    /// Its next step has a ticket above this one too.
    pub fn raise(&mut self, ticket: u64)
        ensures { self.new ≡ record self.old { last = max self.old.last ticket } }
    {
        self.last = self.last.max(ticket);
    }
}
