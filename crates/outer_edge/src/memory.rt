ghost use Rattle.std.specs.Prelude.{◌≡◌, ◌-◌, ◌↔◌, length, take, drop, min, Some, IsErr, IfOk, OnErr};
ghost use Rattle.outer_edge.specs.Faults.{NeverFalls, counted};
ghost use Rattle.outer_edge.specs.Memory.{new_source, FailsNext, after_giving, after_fault, new_sink, Refuses, after_taking, after_refusal};

use crate::{Failed, NoMemory, Sink, Source, SureSource};
use std::alloc::Global;
use std::marker::Model;

mod backlog;
mod door;
mod link;
mod net;
mod past;

pub use door::MemoryDoor;
pub use link::MemoryLink;
pub use net::MemoryNet;

/// A source over bytes in memory, whose calls fail where it was told to. The first call is number 1.
#[derive(Debug, Drop)]
pub struct MemorySource {
    source: SureSource,
    calls: u64,
    failing: Vec<u64>,
    faults: u64,
}

impl Model for MemorySource {
    ghost use Rattle.outer_edge.specs.Memory.{SourceState};

    ghost Value = { SourceState };

    ghost view = { λ s. record {
      came = s.source.came;
      left = s.source.left;
      calls = s.calls;
      failing = s.failing.items;
      faults = s.faults;
    } };
}

impl MemorySource {
    pub fn new(bytes: Vec<u8>, failing: Vec<u64>) -> Self
        ensures { result ≡ new_source bytes.items failing.items }
    {
        MemorySource {
            source: SureSource::new(bytes),
            calls: 0,
            failing,
            faults: 0,
        }
    }

    /// The bytes that it gave so far.
    pub fn came(&self) -> &[u8]
        ensures { result.now ≡ self.now.came }
    {
        self.source.came()
    }
}

impl MemorySource {
    // A call that it is to count, and that is not its own.
    fn count_call(&mut self)
        ensures { self.new ≡ record self.old { calls = counted self.old.calls } }
    {
        self.calls = self.calls.saturating_add(1);
    }
}

impl Source for MemorySource {
    ghost left = { λ s. Some s.left };

    ghost came = { λ s. Some s.came };

    ghost faults = { λ s. s.faults };

    /// Gives as many bytes as there is room for.
    fn read(&mut self, room: &mut [u8]) -> Result<usize, Failed>
        ensures fails { IsErr result ↔ FailsNext self.old }
        ensures err { OnErr result (self.new ≡ after_fault self.old) }
        ensures count { IfOk result (λ count. count ≡ min (length room.old) (length self.old.left)) }
        ensures bytes { IfOk result (λ count. take count room.new ≡ take count self.old.left) }
        ensures rest_of_room { IfOk result (λ count. drop count room.new ≡ drop count room.old) }
        ensures after { IfOk result (λ count. self.new ≡ after_giving count self.old) }
        ensures never_falls { NeverFalls self.old.faults self.new.faults }
    {
        self.calls = self.calls.saturating_add(1);
        if self.failing.contains(&self.calls) {
            self.faults = self.faults.saturating_add(1);
            return Err(Failed);
        }
        self.source.read(room)
    }
}

/// A sink with room for so many bytes, whose calls fail where it was told to. The first call is number 1.
#[derive(Debug, Drop)]
pub struct MemorySink {
    bytes: Vec<u8>,
    room: usize,
    calls: u64,
    failing: Vec<u64>,
    faults: u64,
}

impl Model for MemorySink {
    ghost use Rattle.std.specs.Prelude.{◌≤◌, vec_len, vec_capacity};
    ghost use Rattle.outer_edge.specs.Memory.{SinkState};

    ghost Value = { SinkState };

    ghost view = { λ s. record {
      taken = s.bytes.items;
      room = s.room;
      calls = s.calls;
      failing = s.failing.items;
      faults = s.faults;
    } };

    ghost invariant = { λ s. (vec_len s.bytes ≤ s.room) × (s.room ≤ vec_capacity s.bytes) };
}

impl MemorySink {
    /// All the room is taken now, so that no later call wants memory.
    pub fn new(alloc: Global, room: usize, failing: Vec<u64>) -> Result<Self, NoMemory>
        ensures { IfOk result (λ sink. sink ≡ new_sink room failing.items) }
    {
        Ok(MemorySink {
            bytes: Vec::with_capacity(alloc, room)?,
            room,
            calls: 0,
            failing,
            faults: 0,
        })
    }

    /// The bytes that it took so far.
    pub fn taken(&self) -> &[u8]
        ensures { result.now ≡ self.now.taken }
    {
        &self.bytes
    }
}

impl MemorySink {
    // A call that it is to count, and that is not its own.
    fn count_call(&mut self)
        ensures { self.new ≡ record self.old { calls = counted self.old.calls } }
    {
        self.calls = self.calls.saturating_add(1);
    }
}

impl Sink for MemorySink {
    ghost taken = { λ s. Some s.taken };

    ghost faults = { λ s. s.faults };

    /// Takes as many bytes as there is room for. Where there is none for a byte, that is a fault.
    fn write(&mut self, piece: &[u8]) -> Result<usize, Failed>
        ensures fails { IsErr result ↔ Refuses self.old piece.now }
        ensures err { OnErr result (self.new ≡ after_refusal self.old) }
        ensures count { IfOk result (λ count. count ≡ min (length piece.now) (self.old.room - length self.old.taken)) }
        ensures after { IfOk result (λ count. self.new ≡ after_taking (take count piece.now) self.old) }
        ensures never_falls { NeverFalls self.old.faults self.new.faults }
    {
        self.calls = self.calls.saturating_add(1);
        let count = piece.len().min(self.room - self.bytes.len());
        let is_full = count == 0 && !piece.is_empty();
        if is_full || self.failing.contains(&self.calls) {
            self.faults = self.faults.saturating_add(1);
            return Err(Failed);
        }
        self.bytes.extend_from_slice(&piece[..count]).unwrap();
        Ok(count)
    }
}
