//! What a client makes of a reply: letters, which are posted to mailboxes, and turns that apply them.
ghost use Rattle.std.specs.Prelude.{◌≡◌, ℕ, None, IsSome, IfOk, OnErr};
ghost use Rattle.std.specs.Option.{option_or};
ghost use Rattle.run_setting.specs.Hashed.{hashed};
ghost use Rattle.sync_model.specs.declared.message.Content.{Content as ContentOf};
ghost use Rattle.sync_model.specs.declared.message.Reply.{Reply};
ghost use Rattle.sync_messages.specs.Laws.{HasCanonicalReply};
ghost use Rattle.sync_model.specs.Receiving.{is_other_store, answer_effect, post_effect, turn_effect};
ghost use Rattle.replay_messages.specs.Forms.{IsPlainCall};
ghost use Rattle.replay_messages.specs.Messages.{reply_told};
ghost use Rattle.replay_client.specs.Happenings.{Happens, HappensAlone, IsPlainOutcome};
ghost use Rattle.replay_client.specs.Readings.{ArePlainLetters};
ghost use Rattle.replay_client.specs.Replies.{IsReplyTo, with_letters};

use crate::client::{Client, copied};
use crate::letters::{Letters, letters_in};
use client_tags::Kind;
use sync_messages::FromServer;
use sync_model::{Content, EventOutcome, Request, Settlement};
use wire_fields::{NoMemory, Octets};

// A reply is of another store than the one that the client knows.
fn is_other_store(kept: &Option<Octets>, found: &Option<Octets>) -> bool
    ensures { result ≡ is_other_store kept.now found.now }
{
    match (kept, found) {
        (Some(kept), Some(found)) => kept.as_slice() != found.as_slice(),
        _ => false,
    }
}

// The birthday that a client knows after a reply: it keeps the first one.
fn first_birthday(kept: &Option<Octets>, found: &Option<Octets>) -> Result<Option<Octets>, NoMemory>
    ensures { IfOk result (λ birthday. birthday ≡ option_or kept.now found.now) }
{
    match kept {
        Some(birthday) => Ok(Some(birthday.copy()?)),
        None => copied(found),
    }
}

impl Client {
    // The client takes what a reply says of each type, and the birthday that it knows from then on.
    fn take_letters(&mut self, letters: Letters, birthday: Option<Octets>)
        requires { ArePlainLetters letters }
        ensures { self.new ≡ with_letters self.old letters birthday }
    {
        self.nigori.letter = letters.nigori;
        self.preference.letter = letters.preference;
        self.password.letter = letters.password;
        self.birthday = birthday;
        self.outstanding = None;
    }

    /// The reply to the outstanding request, which is this one, reaches the client as a message. It takes time in
    /// what the message holds.
    ///
    /// Its entities have canonical extras, as those have that are decoded. A message that tells no reply of a server to
    /// the request is read as far as it goes.
    pub fn answer(
        &mut self,
        request: &Request<Content>,
        message: &FromServer,
    ) -> Result<EventOutcome, NoMemory>
        requires plain { IsPlainCall request.now.call }
        requires canonical { HasCanonicalReply message.now.reply }
        ensures happens { (seed : ℕ) (reply : Reply ContentOf) → message.now ≡ reply_told seed request.now reply → IsReplyTo request.now.call reply.verdict
            → IfOk result (λ outcome. HappensAlone (answer_effect request.now reply self.old) outcome self.old self.new) }
        ensures plain { IfOk result IsPlainOutcome }
        ensures err { OnErr result (self.new ≡ self.old) }
    {
        if is_other_store(&self.birthday, &message.birthday) {
            self.outstanding = None;
            return Ok(EventOutcome::Done);
        }
        let Some(letters) = letters_in(self.alloc, &request.call, &message.reply)? else {
            self.outstanding = None;
            return Ok(EventOutcome::Done);
        };
        let birthday = first_birthday(&self.birthday, &message.birthday)?;
        self.take_letters(letters, birthday);
        Ok(EventOutcome::Done)
    }

    /// What the last reply says of a type goes to the type's mailbox.
    pub fn post(&mut self, kind: Kind) -> Result<EventOutcome, NoMemory>
        ensures happens { IfOk result (λ outcome. HappensAlone (post_effect hashed kind self.old) outcome self.old self.new) }
        ensures plain { IfOk result IsPlainOutcome }
        ensures err { OnErr result (self.new ≡ self.old) }
        ensures memory { OnErr result (IsSome (post_effect hashed kind self.old)) }
    {
        match kind {
            Kind::Nigori => self.nigori.post(),
            Kind::Preference => self.preference.post(),
            Kind::Password => self.password.post(),
        }
    }

    /// The first task of a type's mailbox is applied. It takes time in what the task holds, and the logarithm of the
    /// number of preferences for each of the task's.
    pub fn turn(
        &mut self,
        number: u32,
        kind: Kind,
        settlements: &mut Vec<Settlement>,
    ) -> Result<EventOutcome, NoMemory>
        ensures happens { IfOk result (λ outcome. Happens number (turn_effect hashed kind self.old) outcome
            self.old self.new settlements.old.items settlements.new.items) }
        ensures plain { IfOk result IsPlainOutcome }
        ensures err { OnErr result (self.new ≡ self.old) }
        ensures memory { OnErr result (IsSome (turn_effect hashed kind self.old)) }
        ensures unsettled { OnErr result (settlements.new.items ≡ settlements.old.items) }
    {
        match kind {
            Kind::Nigori => self.nigori.turn(number, Kind::Nigori, settlements),
            Kind::Preference => self.preference.turn(number, Kind::Preference, settlements),
            Kind::Password => self.password.turn(number, Kind::Password, settlements),
        }
    }
}
