// Threads that work on a desk, whatever its core is. Each makes twenty steps by the number of its seat.
ghost use Rattle.std.specs.Prelude.{ℕ, ◌≡◌, ◌<◌, ◌^◌, IfSome};
ghost use Rattle.std.specs.List.{All};
ghost use Rattle.trail_desk.specs.Passes.{IsPassOf, IsTrail};

use crate::{Core, Desk, Entry, Opened, Pass, Room, Tickets};
use std::sync::Wait;
use std::thread;
use std::thread::{Threads, join};

// The steps of one thread.
fn add<C: Core<u64, G>, G: Drop, B: Room, R: Wait>(
    rt: &R,
    desk: &Desk<C, u64, G, B>,
    mut pass: Pass<C, u64, G>,
    tickets: &Tickets,
) -> Pass<C, u64, G>
    requires of_desk { IsPassOf desk.now pass }
    requires takes { (act : ℕ) → act < 2 ^ 32 → C.takes desk.now.opening.core act }
    ensures { IsPassOf desk.now result }
{
    let number = pass.seat();
    'steps: for _ in 0..20 {
        if desk.act(rt, &mut pass, tickets, u64::from(number)).is_err() {
            break;
        }
    }
    pass
}

// Two threads with a pass each.
fn by_two<C: Core<u64, G> + Send, G: Drop + Send, B: Room + Send + Sync, R: Threads + Wait + Sync>(
    rt: &R,
    desk: &Desk<C, u64, G, B>,
    mut passes: Vec<Pass<C, u64, G>>,
    tickets: &Tickets,
) -> Option<Vec<Pass<C, u64, G>>>
    requires of_desk { All (IsPassOf desk.now) passes.items }
    requires takes { (act : ℕ) → act < 2 ^ 32 → C.takes desk.now.opening.core act }
    ensures { IfSome result (λ all. All (IsPassOf desk.now) all.items) }
{
    let Some(two) = passes.pop() else {
        return None;
    };
    let Some(one) = passes.pop() else {
        return None;
    };
    let (one, two) = join(
        rt,
        move || -> Pass<C, u64, G>
            requires { IsPassOf desk.now one × ((act : ℕ) → act < 2 ^ 32 → C.takes desk.now.opening.core act) }
            ensures { IsPassOf desk.entry.now result }
        { add(rt, desk, one, tickets) },
        move || -> Pass<C, u64, G>
            requires { IsPassOf desk.now two × ((act : ℕ) → act < 2 ^ 32 → C.takes desk.now.opening.core act) }
            ensures { IsPassOf desk.entry.now result }
        { add(rt, desk, two, tickets) },
    );
    let Ok(()) = passes.push(one) else {
        return None;
    };
    let Ok(()) = passes.push(two) else {
        return None;
    };
    Some(passes)
}

// A thread for each pass.
fn by_all<C: Core<u64, G> + Send, G: Drop + Send, B: Room + Send + Sync, R: Threads + Wait + Sync>(
    rt: &R,
    desk: &Desk<C, u64, G, B>,
    passes: Vec<Pass<C, u64, G>>,
    tickets: &Tickets,
) -> Option<Vec<Pass<C, u64, G>>>
    requires of_desk { All (IsPassOf desk.now) passes.items }
    requires takes { (act : ℕ) → act < 2 ^ 32 → C.takes desk.now.opening.core act }
    ensures { IfSome result (λ all. All (IsPassOf desk.now) all.items) }
{
    let done = thread::map_vec(
        rt,
        passes,
        &|pass: Pass<C, u64, G>| -> Pass<C, u64, G>
            requires { IsPassOf desk.now pass × ((act : ℕ) → act < 2 ^ 32 → C.takes desk.now.opening.core act) }
            ensures { IsPassOf desk.entry.now result }
        { add(rt, desk, pass, tickets) },
    );
    let Ok(all) = done else {
        return None;
    };
    Some(all)
}

// The core and the trail after two threads.
pub fn closed_after_two<
    C: Core<u64, G> + Send,
    G: Drop + Send,
    B: Room + Send + Sync,
    R: Threads + Wait + Sync,
>(rt: &R, opened: Opened<C, u64, G>) -> Option<(C, Vec<Entry<u64, G>>)>
    requires room { opened.table ≡ B.table }
    requires takes { (act : ℕ) → act < 2 ^ 32 → C.takes opened.opening.core act }
    ensures { IfSome result (λ closed. IsTrail C.steps opened.opening closed.1.items closed.0) }
{
    let tickets = Tickets::new();
    let (desk, passes) = opened.named::<B>();
    let passes = by_two(rt, &desk, passes, &tickets)?;
    Some(desk.close(passes))
}

// The core and the trail after a thread for each seat.
pub fn closed_after_all<
    C: Core<u64, G> + Send,
    G: Drop + Send,
    B: Room + Send + Sync,
    R: Threads + Wait + Sync,
>(rt: &R, opened: Opened<C, u64, G>) -> Option<(C, Vec<Entry<u64, G>>)>
    requires room { opened.table ≡ B.table }
    requires takes { (act : ℕ) → act < 2 ^ 32 → C.takes opened.opening.core act }
    ensures { IfSome result (λ closed. IsTrail C.steps opened.opening closed.1.items closed.0) }
{
    let tickets = Tickets::new();
    let (desk, passes) = opened.named::<B>();
    let passes = by_all(rt, &desk, passes, &tickets)?;
    Some(desk.close(passes))
}

// Whether the tickets of a trail ascend, and its steps are twenty of each seat, numbered from 1, each by the seat's number.
pub fn has_twenty_each<G>(trail: &[Entry<u64, G>], seats: u32) -> bool {
    let mut ticket = 0;
    for entry in trail {
        if entry.ticket <= ticket {
            return false;
        }
        ticket = entry.ticket;
    }
    for seat in 0..seats {
        if !has_twenty(trail, seat.saturating_add(1)) {
            return false;
        }
    }
    trail.len() == 20 * seats as usize
}

fn has_twenty<G>(trail: &[Entry<u64, G>], seat: u32) -> bool {
    let mut next = 1u64;
    for entry in trail {
        if entry.seat == seat {
            if entry.number != next || entry.act != u64::from(seat) {
                return false;
            }
            next = next.saturating_add(1);
        }
    }
    next == 21
}
