//! A client's side of one type: its processor, and what its cycle keeps for it.
ghost use Rattle.std.specs.Prelude.{◌≡◌, ◌+◌, ◌<◌, ◌≤◌, ◌++◌, length, map, vec_len, vec_capacity, IsSome, IfOk, IfSome, OnErr};
ghost use Rattle.sync_model.specs.Worlds.{settlement_of};
ghost use Rattle.type_processor.specs.Fits.{IsTaskOf};
ghost use Rattle.replay_client.specs.Sides.{new_side_of, seen_after, IsPosted, IsTurned};

use client_tags::Kind;
use conflict_rules::TypeRules;
use std::alloc::Global;
use sync_model::{EventOutcome, Note, Settlement, Task};
use type_processor::{Processor, Turn};
use wire_fields::NoMemory;

/// A client's side of one type: its processor, the version up to which it has seen all writes, and what the last
/// reply says of the type and is not yet posted.
#[derive(Drop)]
pub(crate) struct Side<R> {
    pub(crate) processor: Processor<R>,
    pub(crate) seen: u64,
    pub(crate) letter: Option<Task>,
}

// The version up to which all writes are seen once a task is posted.
fn seen_after(seen: u64, letter: &Option<Task>) -> u64
    ensures { result ≡ seen_after seen letter.now }
{
    match letter {
        Some(Task::Batch(batch)) => seen.max(batch.mark),
        _ => seen,
    }
}

// Settles what a turn of a client's type noted.
fn settle(settlements: &mut Vec<Settlement>, client: u32, kind: Kind, notes: &[Note])
    requires { vec_len settlements.old + length notes.now ≤ vec_capacity settlements.old }
    ensures { settlements.new.items ≡ settlements.old.items ++ map (settlement_of client kind) notes.now }
{
    for note in notes {
        settlements.push_reserved(Settlement {
            client,
            kind,
            number: note.number,
            fate: note.fate,
        });
    }
}

impl<R: TypeRules> Side<R> {
    /// A side that nothing has happened to. It takes no memory.
    pub(crate) fn new(alloc: Global, kind: Kind, rules: R) -> Side<R>
        ensures { result ≡ new_side_of kind rules }
    {
        Side {
            processor: Processor::new(alloc, kind, rules),
            seen: 0,
            letter: None,
        }
    }

    /// The letter, if there is one, goes to the mailbox.
    pub(crate) fn post(&mut self) -> Result<EventOutcome, NoMemory>
        requires { IfSome self.old.letter (IsTaskOf self.old.processor.kind) }
        ensures posted { IfOk result (λ outcome. IsPosted self.old outcome self.new) }
        ensures err { OnErr result (self.new ≡ self.old) }
        ensures memory { OnErr result (IsSome self.old.letter) }
    {
        if self.letter.is_none() {
            return Ok(EventOutcome::Void);
        }
        let seen = seen_after(self.seen, &self.letter);
        self.processor.post_letter(&mut self.letter)?;
        self.seen = seen;
        Ok(EventOutcome::Done)
    }

    /// The first task of the mailbox is applied, and what it settles is noted as this client's.
    pub(crate) fn turn(
        &mut self,
        client: u32,
        kind: Kind,
        settlements: &mut Vec<Settlement>,
    ) -> Result<EventOutcome, NoMemory>
        ensures turned { IfOk result (λ outcome. IsTurned (R.decided self.old.processor.rules) client kind self.old outcome self.new
            settlements.old.items settlements.new.items) }
        ensures err { OnErr result (self.new ≡ self.old) }
        ensures memory { OnErr result (0 < length self.old.processor.mailbox) }
        ensures unsettled { OnErr result (settlements.new.items ≡ settlements.old.items) }
    {
        if self.processor.mailbox_len() == 0 {
            return Ok(EventOutcome::Void);
        }
        settlements.reserve(self.processor.next_size())?;
        match self.processor.turn()? {
            Turn::Idle => Ok(EventOutcome::Void),
            Turn::Turned(notes) => {
                settle(settlements, client, kind, notes.as_slice());
                Ok(EventOutcome::Done)
            }
        }
    }
}
