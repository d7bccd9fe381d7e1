//! What a client sends: how it gathers entries, and the requests that it makes.
ghost use Rattle.std.specs.Prelude.{◌≡◌, ℕ, ◌<◌, ◌^◌, ◌||◌, ◌==◌, is_some, length, IsSome, IfOk, OnOk, OnErr};
ghost use Rattle.std.specs.List.{AllByRecursion};
ghost use Rattle.run_setting.specs.Hashed.{hashed};
ghost use Rattle.sync_model.specs.Clients.{side_of};
ghost use Rattle.sync_model.specs.Sending.{is_gather_void, gathering, is_busy, gather_effect, ask_effect, offer_effect};
ghost use Rattle.replay_client.specs.Requests.{marks_with};
ghost use Rattle.replay_client.specs.Happenings.{HappensAlone, IsPlainOutcome};

use crate::client::{Client, copied};
use crate::held::{hold, holds, room_beside};
use client_tags::Kind;
use std::alloc::Global;
use std::mem;
use sync_model::{Call, EventOutcome, Marker, Request};
use wire_fields::{List, NoMemory};

// The marks that a client has seen.
fn seen_marks(
    alloc: Global,
    nigori: u64,
    preference: u64,
    password: u64,
) -> Result<List<Marker>, NoMemory>
    ensures seen { IfOk result (λ marks. marks ≡ marks_with nigori preference password) }
    ensures fit { IfOk result (AllByRecursion (λ marker. marker.mark < 2 ^ 64)) }
{
    let mut marks = List::new(alloc);
    marks.push(Marker {
        kind: Kind::Nigori,
        mark: nigori,
    })?;
    marks.push(Marker {
        kind: Kind::Preference,
        mark: preference,
    })?;
    marks.push(Marker {
        kind: Kind::Password,
        mark: password,
    })?;
    Ok(marks)
}

impl Client {
    // What is to be sent of a type cannot join what is held.
    fn cannot_gather(&self, kind: Kind) -> bool
        ensures { result ≡ is_gather_void kind self.now }
    {
        self.outstanding.is_some() || self.has_letter_of(kind) || holds(kind, &self.held)
    }

    // What is to be sent of a type joins what is held. Only preferences have anything.
    fn take_offers(&mut self, kind: Kind) -> Result<(), NoMemory>
        ensures ok { OnOk result ((number : ℕ) → self.new ≡ gathering hashed number kind self.old (side_of self.old kind).pending) }
        ensures err { OnErr result (self.new ≡ self.old) }
    {
        let room = room_beside(&self.held);
        let Kind::Preference = kind else {
            return Ok(());
        };
        // The room comes first, since the processor notes what it gives.
        self.held.reserve(room)?;
        let offers = self.preference.processor.offers(None, room)?;
        hold(&mut self.held, offers.into_vec());
        Ok(())
    }

    /// What is to be sent of a type joins what is held, up to the size of a commit. Nothing seals it, so the client's
    /// number does not matter. It looks at each preference once, and copies what it holds.
    pub fn gather(&mut self, kind: Kind) -> Result<EventOutcome, NoMemory>
        ensures happens { IfOk result (λ outcome. (number : ℕ) → HappensAlone (gather_effect hashed number kind self.old) outcome self.old self.new) }
        ensures plain { IfOk result IsPlainOutcome }
        ensures err { OnErr result (self.new ≡ self.old) }
        ensures memory { OnErr result ((number : ℕ) → IsSome (gather_effect hashed number kind self.old)) }
    {
        if self.cannot_gather(kind) {
            return Ok(EventOutcome::Void);
        }
        self.take_offers(kind)?;
        Ok(EventOutcome::Done)
    }

    /// The client of this number asks for all that is new to it, which this event requests.
    pub fn ask(&mut self, number: u32, event: u32) -> Result<EventOutcome, NoMemory>
        ensures happens { IfOk result (λ outcome. HappensAlone (ask_effect number event self.old) outcome self.old self.new) }
        ensures plain { IfOk result IsPlainOutcome }
        ensures err { OnErr result (self.new ≡ self.old) }
        ensures memory { OnErr result (IsSome (ask_effect number event self.old)) }
    {
        if self.is_busy() {
            return Ok(EventOutcome::Void);
        }
        let birthday = copied(&self.birthday)?;
        let marks = seen_marks(
            self.alloc,
            self.nigori.seen,
            self.preference.seen,
            self.password.seen,
        )?;
        self.outstanding = Some(event);
        Ok(EventOutcome::Requested {
            client: number,
            request: Request {
                birthday,
                call: Call::Updates(marks),
            },
        })
    }

    // There can be no commit.
    fn cannot_offer(&self) -> bool
        ensures { result ≡ (is_busy self.now || length self.now.held == 0) }
    {
        self.is_busy() || self.held.is_empty()
    }

    /// What the client of this number holds becomes a commit, which this event requests.
    pub fn offer(&mut self, number: u32, event: u32) -> Result<EventOutcome, NoMemory>
        ensures happens { IfOk result (λ outcome. HappensAlone (offer_effect number event self.old) outcome self.old self.new) }
        ensures plain { IfOk result IsPlainOutcome }
        ensures err { OnErr result (self.new ≡ self.old) }
        ensures memory { OnErr result (IsSome (offer_effect number event self.old)) }
    {
        if self.cannot_offer() {
            return Ok(EventOutcome::Void);
        }
        let birthday = copied(&self.birthday)?;
        let entries = mem::replace(&mut self.held, Vec::new(self.alloc));
        self.outstanding = Some(event);
        Ok(EventOutcome::Requested {
            client: number,
            request: Request {
                birthday,
                call: Call::Commit(List::from_vec(entries)),
            },
        })
    }
}
