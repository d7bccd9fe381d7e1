//! Numbers that order the steps of several desks.
ghost use Rattle.std.specs.Prelude.{◌<◌};

use std::sync::Wait;
use std::sync::atomic::{AtomicU64, Ordering};

/// A source of numbers that several threads draw from, one after another from 1 on. No contract says which number
/// comes: a step draws until it has one that is high enough.
#[derive(Drop)]
pub struct Tickets {
    next: AtomicU64,
}

impl Tickets {
    pub fn new() -> Tickets {
        Tickets {
            next: AtomicU64::new(1),
        }
    }

    /// The next number.
    pub fn draw(&self) -> u64 {
        self.next.fetch_add(1, Ordering::SeqCst)
    }

    /// Draws until the number is above this one.
    pub fn draw_above<R: Wait>(&self, rt: &R, ticket: u64) -> u64
        ensures { ticket < result }
    {
        for _ in rt.forever() {
            let drawn = self.draw();
            if ticket < drawn {
                return drawn;
            }
        }
        unreachable!()
    }
}
