//! Calls that give bytes as a source that reads ahead.
ghost use Rattle.std.specs.Prelude.{◌≡◌, ◌≤◌, ◌<◌, [], ◌++◌, length, take, drop, min, None, IfOk, OnOk, OnErr};
ghost use Rattle.outer_edge.specs.Faults.{NeverFalls, counted};
ghost use Rattle.outer_edge.specs.Source.{preceded, GivesFront, IsAtEnd};

use crate::retried::read_retried;
use crate::source::ROOM;
use crate::{Failed, InputCalls, Source};
use std::marker::Model;

// Bytes that came, and were not given on yet.
#[derive(Drop)]
struct ReadAhead {
    bytes: [u8; ROOM],
    start: usize,
    end: usize,
}

impl Model for ReadAhead {
    ghost use Rattle.std.specs.Prelude.{◌≤◌, ℕ, List, length, take, drop};

    ghost Value = { List ℕ };

    ghost view = { λ a. drop a.start (take a.end a.bytes) };

    ghost invariant = { λ a. (a.start ≤ a.end) × (a.end ≤ length a.bytes) };
}

impl ReadAhead {
    fn new() -> Self
        ensures { result ≡ [] }
    {
        ReadAhead {
            bytes: [0; ROOM],
            start: 0,
            end: 0,
        }
    }

    // Reads once.
    fn refill<C: InputCalls>(&mut self, calls: &mut C) -> Result<(), Failed>
        requires none_left { self.old ≡ [] }
        ensures gave { OnOk result (GivesFront (C.left calls.old) (C.left calls.new) self.new) }
        ensures ended { OnOk result (self.new ≡ [] → IsAtEnd (C.left calls.old)) }
        ensures none_lost { OnErr result (C.left calls.new ≡ C.left calls.old) }
        ensures none_came { OnErr result (self.new ≡ []) }
    {
        self.start = 0;
        self.end = 0;
        self.end = read_retried(calls, &mut self.bytes)?;
        Ok(())
    }

    // Reads once, where no byte is left.
    fn prepare<C: InputCalls>(&mut self, calls: &mut C) -> Result<(), Failed>
        ensures same { preceded self.old (C.left calls.old) ≡ preceded self.new (C.left calls.new) }
        ensures ended { OnOk result (self.new ≡ [] → IsAtEnd (preceded self.old (C.left calls.old))) }
    {
        if self.left().is_empty() {
            self.refill(calls)
        } else {
            Ok(())
        }
    }

    fn left(&self) -> &[u8]
        ensures { result.now ≡ self.now }
    {
        &self.bytes[..self.end][self.start..]
    }

    // Gives on as many bytes as there is room for.
    fn give(&mut self, room: &mut [u8]) -> usize
        ensures count { result ≡ min (length room.old) (length self.old) }
        ensures gave { self.old ≡ take result room.new ++ self.new }
        ensures rest_of_room { drop result room.new ≡ drop result room.old }
    {
        let left = self.left();
        let count = room.len().min(left.len());
        room[..count].copy_from_slice(&left[..count]);
        self.start += count;
        count
    }
}

/// Calls of the system as a source that reads ahead: it asks for up to 4,096 bytes at once, so that many small reads are
/// one call. It tells what is left, where the calls do.
#[derive(Drop)]
pub struct Buffered<C> {
    pub(crate) calls: C,
    ahead: ReadAhead,
    faults: u64,
}

impl<C> Buffered<C> {
    pub fn over(calls: C) -> Self
        ensures calls { result.calls ≡ calls }
        ensures none_ahead { result.ahead ≡ [] }
        ensures no_faults { result.faults ≡ 0 }
    {
        Buffered {
            calls,
            ahead: ReadAhead::new(),
            faults: 0,
        }
    }

    pub(crate) fn fault_count(&self) -> u64
        ensures { result ≡ self.now.faults }
    {
        self.faults
    }
}

impl<C: InputCalls> Source for Buffered<C> {
    ghost left = { λ s. preceded s.ahead (C.left s.calls) };

    ghost came = { λ _. None };

    ghost faults = { λ s. s.faults };

    /// Gives what was read ahead, and asks for more only where none is left.
    fn read(&mut self, room: &mut [u8]) -> Result<usize, Failed> {
        if room.is_empty() {
            return Ok(0);
        }
        match self.ahead.prepare(&mut self.calls) {
            Ok(()) => Ok(self.ahead.give(room)),
            Err(Failed) => {
                self.faults = self.faults.saturating_add(1);
                Err(Failed)
            }
        }
    }
}
