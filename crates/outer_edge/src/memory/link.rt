//! A link over memory.
ghost use Rattle.std.specs.Prelude.{◌≡◌, ◌-◌, ◌↔◌, length, take, drop, min, IsTrue, IsErr, IfOk, OnErr};
ghost use Rattle.outer_edge.specs.Faults.{NeverFalls};
ghost use Rattle.outer_edge.specs.Memory.{new_link, FailsNext, after_giving, after_fault, Refuses, after_taking, after_refusal, after_reading, after_writing};
ghost use Rattle.outer_edge.specs.MemoryNets.{is_faulty, IsUnused};

use crate::{Failed, Link, MemorySink, MemorySource, NoMemory, Sink, Source};
use std::alloc::Global;
use std::marker::Model;

/// A link over bytes in memory, with room for so many. It reads as a [`MemorySource`] and writes as a [`MemorySink`],
/// but for its calls that fail: reads and writes are numbered together, and the first is number 1.
#[derive(Debug, Drop)]
pub struct MemoryLink {
    source: MemorySource,
    sink: MemorySink,
}

impl Model for MemoryLink {
    ghost use Rattle.outer_edge.specs.Memory.{LinkState};

    ghost Value = { LinkState };

    ghost view = { λ link. record { source = link.source; sink = link.sink } };
}

impl MemoryLink {
    /// All the room is taken now, so that no later call wants memory.
    pub fn new(
        alloc: Global,
        bytes: Vec<u8>,
        room: usize,
        failing: Vec<u64>,
    ) -> Result<Self, NoMemory>
        ensures { IfOk result (λ link. link ≡ new_link bytes.items room failing.items) }
    {
        let sink = MemorySink::new(alloc, room, failing.clone()?)?;
        let source = MemorySource::new(bytes, failing);
        Ok(MemoryLink { source, sink })
    }

    /// The bytes that it gave so far.
    pub fn came(&self) -> &[u8]
        ensures { result.now ≡ self.now.source.came }
    {
        self.source.came()
    }

    /// The bytes that it took so far.
    pub fn taken(&self) -> &[u8]
        ensures { result.now ≡ self.now.sink.taken }
    {
        self.sink.taken()
    }

    /// Whether a call of it has failed.
    pub fn has_fault(&self) -> bool
        ensures { result ≡ is_faulty self.now }
    {
        self.source.faults > 0 || self.sink.faults > 0
    }

    /// Whether nothing has come or was taken, and no call has failed.
    pub fn is_unused(&self) -> bool
        ensures { IsTrue result ↔ IsUnused self.now }
    {
        self.came().is_empty() && self.taken().is_empty() && !self.has_fault()
    }
}

impl Source for MemoryLink {
    ghost use Rattle.std.specs.Prelude.{Some};
    ghost use Rattle.outer_edge.specs.Sides.{SinkSide};

    ghost left = { λ link. Some link.source.left };

    ghost came = { λ link. Some link.source.came };

    ghost faults = { λ link. link.source.faults };

    ghost as_sink = { λ link. record { taken = Some link.sink.taken; faults = link.sink.faults } };

    /// Gives as many bytes as there is room for.
    fn read(&mut self, room: &mut [u8]) -> Result<usize, Failed>
        ensures fails { IsErr result ↔ FailsNext self.old.source }
        ensures err { OnErr result (self.new ≡ after_reading (after_fault self.old.source) self.old) }
        ensures count { IfOk result (λ count. count ≡ min (length room.old) (length self.old.source.left)) }
        ensures bytes { IfOk result (λ count. take count room.new ≡ take count self.old.source.left) }
        ensures rest_of_room { IfOk result (λ count. drop count room.new ≡ drop count room.old) }
        ensures after { IfOk result (λ count. self.new ≡ after_reading (after_giving count self.old.source) self.old) }
        ensures never_falls { NeverFalls self.old.source.faults self.new.source.faults }
    {
        self.sink.count_call();
        self.source.read(room)
    }
}

impl Sink for MemoryLink {
    ghost use Rattle.std.specs.Prelude.{Some};
    ghost use Rattle.outer_edge.specs.Sides.{SourceSide};

    ghost taken = { λ link. Some link.sink.taken };

    ghost faults = { λ link. link.sink.faults };

    ghost as_source = { λ link. record { left = Some link.source.left; came = Some link.source.came; faults = link.source.faults } };

    /// Takes as many bytes as there is room for. Where there is none for a byte, that is a fault.
    fn write(&mut self, piece: &[u8]) -> Result<usize, Failed>
        ensures fails { IsErr result ↔ Refuses self.old.sink piece.now }
        ensures err { OnErr result (self.new ≡ after_writing (after_refusal self.old.sink) self.old) }
        ensures count { IfOk result (λ count. count ≡ min (length piece.now) (self.old.sink.room - length self.old.sink.taken)) }
        ensures after { IfOk result (λ count. self.new ≡ after_writing (after_taking (take count piece.now) self.old.sink) self.old) }
        ensures never_falls { NeverFalls self.old.sink.faults self.new.sink.faults }
    {
        self.source.count_call();
        self.sink.write(piece)
    }
}

impl Link for MemoryLink {
    ghost use Rattle.std.specs.Prelude.{refl};

    ghost sink_is = { λ _. refl };

    ghost source_is = { λ _. refl };
}
