//! Slots in a row that is linked both ways, so that one leaves its place in constant time.
ghost use Rattle.std.specs.Prelude.{◌≡◌, ◌≢◌, ℕ, ◌+◌, ◌<◌, ◌≤◌, max, [], ◌∷◌, ◌++◌, length, Option, None, Some, IsOk, OnOk, OnErr, slice_index_or};
ghost use Rattle.std.specs.List.{AllByRecursion};
ghost use Rattle.version_chain.specs.Slots.{IsAmong, AreApart, without, first_of, last_of, after, before};
ghost use Rattle.version_chain.specs.Links.{no_link, next_of, previous_of, IsPlace, Joins, AreKept, Skips, Appends};

use std::alloc::Global;
use std::marker::Model;
use wire_fields::NoMemory;

/// The neighbours of a slot, each if there is one.
#[derive(Clone, Copy)]
pub(crate) struct Link {
    previous: Option<usize>,
    next: Option<usize>,
}

const NO_LINK: Link = Link {
    previous: None,
    next: None,
};

/// Slots in a row. Only `reserve` takes memory, and no call goes through the row.
#[derive(Drop)]
pub(crate) struct LinkedSlots {
    links: Vec<Link>,
    // The last slot, and the first one.
    ends: Link,
    len: usize,
}

impl Model for LinkedSlots {
    ghost use Rattle.version_chain.specs.Queues.{Queued};

    ghost Value = { Queued };

    ghost use Rattle.std.specs.Prelude.{length};
    ghost use Rattle.version_chain.specs.Links.{slots_of, IsRow};

    ghost view = { λ row. record { slots = slots_of row.links.items row.ends row.len; room = length row.links.items } };

    ghost invariant = { λ row. IsRow row.links.items row.ends row.len };
}

// Leads from a place to another one.
fn set_next(links: &mut Vec<Link>, ends: &mut Link, at: Option<usize>, to: Option<usize>)
    requires { IsPlace links.old.items at }
    ensures next { Joins (next_of links.old.items ends.old) (next_of links.new.items ends.new) at to }
    ensures previous { AreKept (previous_of links.old.items ends.old) (previous_of links.new.items ends.new) }
    ensures len { length links.new.items ≡ length links.old.items }
{
    match at {
        Some(slot) => links[slot].next = to,
        None => ends.next = to,
    }
}

// Leads back from a place to another one.
fn set_previous(links: &mut Vec<Link>, ends: &mut Link, at: Option<usize>, to: Option<usize>)
    requires { IsPlace links.old.items at }
    ensures next { AreKept (next_of links.old.items ends.old) (next_of links.new.items ends.new) }
    ensures previous { Joins (previous_of links.old.items ends.old) (previous_of links.new.items ends.new) at to }
    ensures len { length links.new.items ≡ length links.old.items }
{
    match at {
        Some(slot) => links[slot].previous = to,
        None => ends.previous = to,
    }
}

// Gives links to all slots below a number; those that had none are in no row.
fn grow(links: &mut Vec<Link>, len: usize) -> Result<(), NoMemory>
    requires { length links.old.items ≤ len }
    ensures ok { OnOk result (length links.new.items ≡ len) }
    ensures kept { (slot : ℕ) → slice_index_or links.new.items slot no_link ≡ slice_index_or links.old.items slot no_link }
    ensures grows { length links.old.items ≤ length links.new.items }
    ensures err { OnErr result (links.new.items ≡ links.old.items) }
{
    links.resize(len, NO_LINK)?;
    Ok(())
}

// The link of a slot.
fn link_at(links: &[Link], slot: usize) -> Link
    requires { slot < length links.now }
    ensures { result ≡ slice_index_or links.now slot no_link }
{
    links[slot]
}

// Gives a slot this link.
fn set_link(links: &mut Vec<Link>, ends: &Link, slot: usize, link: Link)
    requires { slot < length links.old.items }
    ensures next { Joins (next_of links.old.items ends.now) (next_of links.new.items ends.now) (Some slot) link.next }
    ensures previous { Joins (previous_of links.old.items ends.now) (previous_of links.new.items ends.now) (Some slot)
        link.previous }
    ensures len { length links.new.items ≡ length links.old.items }
{
    let _end = ends;
    links[slot] = link;
}

// The slot's neighbours lead to each other from now on.
fn skip(links: &mut Vec<Link>, ends: &mut Link, slot: usize)
    requires slot { slot < length links.old.items }
    requires previous { IsPlace links.old.items (previous_of links.old.items ends.old (Some slot)) }
    requires next { IsPlace links.old.items (next_of links.old.items ends.old (Some slot)) }
    ensures skips { Skips (next_of links.old.items ends.old) (previous_of links.old.items ends.old)
        (next_of links.new.items ends.new) (previous_of links.new.items ends.new) slot }
    ensures len { length links.new.items ≡ length links.old.items }
{
    let Link { previous, next } = links[slot];
    set_next(links, ends, previous, next);
    set_previous(links, ends, next, previous);
}

// The slot stands behind the last one from now on.
fn link_last(links: &mut Vec<Link>, ends: &mut Link, slot: usize)
    requires slot { slot < length links.old.items }
    requires last { IsPlace links.old.items (previous_of links.old.items ends.old None) }
    requires other { previous_of links.old.items ends.old None ≢ Some slot }
    ensures appends { Appends (next_of links.old.items ends.old) (previous_of links.old.items ends.old)
        (next_of links.new.items ends.new) (previous_of links.new.items ends.new) slot }
    ensures len { length links.new.items ≡ length links.old.items }
{
    let last = ends.previous;
    let link = Link {
        previous: last,
        next: None,
    };
    set_link(links, ends, slot, link);
    set_next(links, ends, last, Some(slot));
    set_previous(links, ends, None, Some(slot));
}

impl LinkedSlots {
    /// No slots, and room for none. It takes no memory.
    pub(crate) fn new(alloc: Global) -> LinkedSlots
        ensures { result ≡ record { slots = []; room = 0 } }
    {
        LinkedSlots {
            links: Vec::new(alloc),
            ends: NO_LINK,
            len: 0,
        }
    }

    /// Makes room for this slot, and each below it. It takes time linear in what it makes, over many calls.
    pub(crate) fn reserve(&mut self, slot: usize) -> Result<(), NoMemory>
        ensures room { OnOk result (slot < self.new.room) }
        ensures grows { self.old.room ≤ self.new.room }
        ensures most { self.new.room ≤ max self.old.room (slot + 1) }
        ensures slots { self.new.slots ≡ self.old.slots }
        ensures succeeds { slot < self.old.room → IsOk result }
        ensures err { OnErr result (self.new ≡ self.old) }
    {
        if slot < self.links.len() {
            return Ok(());
        }
        let Some(len) = slot.checked_add(1) else {
            return Err(NoMemory);
        };
        grow(&mut self.links, len)
    }

    /// Puts a slot behind the last one.
    pub(crate) fn append(&mut self, slot: usize)
        requires room { slot < self.old.room }
        requires absent { ¬ IsAmong slot self.old.slots }
        ensures { self.new ≡ record self.old { slots = self.old.slots ++ slot ∷ [] } }
    {
        link_last(&mut self.links, &mut self.ends, slot);
        self.len += 1;
    }

    /// Takes a slot out of its place.
    pub(crate) fn unlink(&mut self, slot: usize)
        requires { IsAmong slot self.old.slots }
        ensures { self.new ≡ record self.old { slots = without slot self.old.slots } }
    {
        skip(&mut self.links, &mut self.ends, slot);
        self.len -= 1;
    }

    /// The first slot, if there is one.
    pub(crate) fn first(&self) -> Option<usize>
        ensures { result ≡ first_of self.now.slots }
    {
        self.ends.next
    }

    /// The last slot, if there is one.
    pub(crate) fn last(&self) -> Option<usize>
        ensures { result ≡ last_of self.now.slots }
    {
        self.ends.previous
    }

    /// The slot behind this one, if there is one.
    pub(crate) fn after(&self, slot: usize) -> Option<usize>
        requires { IsAmong slot self.now.slots }
        ensures { result ≡ after slot self.now.slots }
    {
        link_at(&self.links, slot).next
    }

    /// The slot before this one, if there is one.
    pub(crate) fn before(&self, slot: usize) -> Option<usize>
        requires { IsAmong slot self.now.slots }
        ensures { result ≡ before slot self.now.slots }
    {
        link_at(&self.links, slot).previous
    }

    /// How many slots there are.
    pub(crate) fn len(&self) -> usize
        ensures len { result ≡ length self.now.slots }
        ensures apart { AreApart self.now.slots }
        ensures placed { AllByRecursion (λ slot. slot < self.now.room) self.now.slots }
    {
        self.len
    }
}
