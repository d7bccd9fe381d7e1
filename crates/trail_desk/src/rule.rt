//! The rule of a desk's table: one word counts the trail, and each token has a view of it that is true.
use crate::entry::{Entry, Opening};
use atomic_table::{Badge, Join, Play, Seat, Split, Table, TableRule};
use std::alloc::Global;
use std::collections::LinkedList;
use std::marker::{Brand, PhantomData};

/// Names the table of one desk. A program picks it where it calls a function that is generic in its rooms.
pub trait Room {
    ghost use Rattle.atomic_table.specs.Seated.{TableId};

    ghost table: { TableId };
}

impl Room for Brand {
    ghost use Rattle.trail_desk.specs.Views.{no_table};

    ghost table = { no_table };
}

/// What the keeper of a table knows: all. No value of it is made.
pub struct Whole<C, A, G> {
    pub opening: Opening<C>,
    pub made: u32,
    pub trail: LinkedList<Entry<A, G>>,
}

/// What a seat knows: the front of the trail that it has seen, and its own steps. No value of it is made.
pub struct Part<A, G> {
    pub seat: u32,
    pub seen: LinkedList<Entry<A, G>>,
    pub own: LinkedList<Entry<A, G>>,
}

/// What a token knows. No value of it is made.
pub struct View<C, A, G> {
    pub opening: Option<Opening<C>>,
    pub whole: Option<Whole<C, A, G>>,
    pub part: Option<Part<A, G>>,
}

pub struct TrailRule;

impl<C, A, G> TableRule<(), View<C, A, G>, Opening<C>> for TrailRule {
    ghost use Rattle.trail_desk.specs.Rules.{Keeps};
    ghost use Rattle.trail_desk.specs.Views.{first_view};

    ghost holds = { Keeps };

    ghost first = { first_view };
}

/// Names the step that an addition to the word enters.
pub trait Named<A, G> {
    ghost use Rattle.trail_desk.specs.declared.entry.Entry.{Entry};

    ghost is: { Entry A G → Type 0 };
}

impl<A, G> Named<A, G> for Brand {
    ghost is = { λ _. ⊥ };
}

/// A load that tells what the rule says.
pub struct Reading;

impl<C, A, G> Play<(), View<C, A, G>> for Reading {
    ghost use Rattle.trail_desk.specs.Rules.{Reads};

    ghost then = { Reads };
}

/// A load that lets the seat see the trail.
pub struct Seeing;

impl<C, A, G> Play<(), View<C, A, G>> for Seeing {
    ghost use Rattle.trail_desk.specs.Rules.{Sees};

    ghost then = { Sees };
}

/// An addition that enters a step.
pub struct Adding<E> {
    named: PhantomData<E>,
}

impl<C, A, G, E: Named<A, G>> Play<(), View<C, A, G>> for Adding<E> {
    ghost use Rattle.trail_desk.specs.Rules.{Adds};

    ghost then = { Adds E.is };
}

/// The keeper's view goes to a token and back.
pub struct Keeping;

impl<C, A, G> Join<View<C, A, G>> for Keeping {
    ghost use Rattle.trail_desk.specs.Views.{with_keeper, nothing};

    ghost both = { with_keeper };

    ghost spent = { nothing };
}

impl<C, A, G> Split<View<C, A, G>> for Keeping {
    ghost use Rattle.trail_desk.specs.Views.{without_keeper, keeper_alone};

    ghost left = { without_keeper };

    ghost right = { keeper_alone };
}

/// The keeper makes a seat.
pub struct Making;

impl<C, A, G> Split<View<C, A, G>> for Making {
    ghost use Rattle.trail_desk.specs.Views.{one_more_made, new_seat};

    ghost left = { one_more_made };

    ghost right = { new_seat };
}

/// A load that makes a token which knows how the desk began.
pub struct Telling;

impl<C, A, G> Play<(), View<C, A, G>> for Telling {
    ghost use Rattle.trail_desk.specs.Rules.{Tells};

    ghost then = { Tells };
}

/// A table of one word under the rule.
pub type TrailTable<C, A, G> = Table<(), View<C, A, G>, Opening<C>, TrailRule, Global>;

/// What steps a table.
pub type Token<C, A, G> = Seat<(), View<C, A, G>>;

/// The keeper of a table while it rests.
pub type Keeper<C, A, G> = Badge<View<C, A, G>>;
