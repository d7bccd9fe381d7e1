//! The world of a schedule: the server, what came of each event, the clients, the settled edits, and the record of the
//! messages.
ghost use Rattle.std.specs.Prelude.{◌≡◌, ℕ, List, ◌+◌, ◌-◌, ◌^◌, ◌<◌, ◌≤◌, ◌↔◌, ◌++◌, IsTrue, [], length, replicate, OnOk, OnErr, IfOk};
ghost use Rattle.sync_model.specs.declared.event.EventOutcome.{EventOutcome as OutcomeOf};
ghost use Rattle.sync_model.specs.declared.message.Content.{Content as ContentOf};
ghost use Rattle.sync_model.specs.declared.message.Entry.{Entry as EntryOf};
ghost use Rattle.sync_model.specs.Clients.{new_client};
ghost use Rattle.sync_model.specs.History.{IsBased};
ghost use Rattle.sync_model.specs.Report.{is_void};
ghost use Rattle.sync_model.specs.declared.event.Schedule.{Schedule as Plan};
ghost use Rattle.sync_model.specs.Worlds.{opening, stepped, world_of};
ghost use Rattle.run_setting.specs.Hashed.{hashed};
ghost use Rattle.replay_messages.specs.Recorders.{HasRecorded};
ghost use Rattle.replay_world.specs.Events.{CanStep, IsVoided};
ghost use Rattle.replay_world.specs.Lawful.{with_event, IsLawfulWorld};
ghost use Rattle.replay_world.specs.Outcomes.{outcome_of, sent};

use crate::happened::Happened;
use crate::run_server::RunServer;
use crate::step::happen;
use replay_client::Client;
use replay_messages::Record;
use run_setting::hashed_is_a_setting;
use std::alloc::Global;
use std::marker::Model;
use sync_model::{Event, Schedule, Settlement, every_write_is_based};
use wire_fields::NoMemory;

/// What a step did.
#[derive(Clone, Copy, Debug, PartialEq, Eq)]
pub enum Stepped {
    Done,
    /// The event could not happen, and changed nothing but the count of the events.
    Void,
}

/// The world of a schedule: at most eight clients, whose requests and replies pass as messages and bytes.
///
/// Contracts see it as the model's world.
#[derive(Drop)]
pub struct World {
    pub(crate) alloc: Global,
    pub(crate) seed: u64,
    pub(crate) server: RunServer,
    pub(crate) happened: Vec<Happened>,
    pub(crate) clients: Vec<Client>,
    pub(crate) settlements: Vec<Settlement>,
    pub(crate) record: Record,
}

impl Model for World {
    ghost use Rattle.sync_model.specs.Worlds as model;

    ghost Value = { model.World };

    ghost use Rattle.replay_world.specs.Worlds.{world_of, IsWorld};

    ghost view = { world_of };

    ghost invariant = { IsWorld };
}

fn stepped_by(happened: &Happened) -> Stepped
    ensures { (history : List (EntryOf ContentOf)) (outcomes : List OutcomeOf)
        → (result ≡ Stepped.Void) ↔ IsTrue (is_void (outcome_of history outcomes happened.now)) }
{
    match happened {
        Happened::Void => Stepped::Void,
        _ => Stepped::Done,
    }
}

// The message that an event made, if it made one, joins the record.
fn record_message(record: &mut Record, happened: &Happened)
    ensures { (so_far : List ℕ) → HasRecorded record.old so_far → HasRecorded record.new (so_far ++ sent happened.now) }
{
    match happened {
        Happened::Requested { bytes, .. } => record.push_request(bytes.as_slice()),
        Happened::Delivered { bytes, .. } => record.push_reply(bytes.as_slice()),
        _ => {}
    }
}

// So many clients that nothing has happened to.
fn new_clients(alloc: Global, count: u32) -> Result<Vec<Client>, NoMemory>
    ensures { IfOk result (λ clients. clients.items ≡ replicate count new_client) }
{
    let mut clients = Vec::with_capacity(alloc, count as usize)?;
    for place in 0..count {
        let _ = place;
        clients.push(Client::new(alloc))?;
    }
    Ok(clients)
}

impl World {
    /// The world before any event of a schedule.
    pub fn new(alloc: Global, schedule: &Schedule) -> Result<World, NoMemory>
        requires clients { schedule.now.clients ≤ 8 }
        requires no_passes { schedule.now.passes ≡ [] }
        ensures { IfOk result (λ world. world ≡ opening schedule.now.clients schedule.now.seed schedule.now.passes) }
    {
        Ok(World {
            alloc,
            seed: schedule.seed,
            server: RunServer::new(alloc)?,
            happened: Vec::new(alloc),
            clients: new_clients(alloc, schedule.clients)?,
            settlements: Vec::new(alloc),
            record: Record::new(),
        })
    }

    /// Steps one event. Its time does not grow with the number of earlier events. An edit costs the logarithm of the
    /// number of keys and what its values cost, a gather looks at each key of the client once, and a request, a
    /// delivery, an answer and a turn cost what their messages hold and, for each entry, the logarithm of the number of
    /// keys. After an `Err` nothing has happened.
    ///
    /// All laws of runs hold of the world of the events so far (`IsLawful` in `sync_model`).
    pub fn step(&mut self, event: &Event) -> Result<Stepped, NoMemory>
        requires known { CanStep (length self.old.clients) event.now }
        requires room { length self.old.outcomes < 2 ^ 32 - 1 }
        ensures ok { OnOk result (self.new ≡ stepped hashed event.now self.old) }
        ensures counted { OnOk result (length self.new.outcomes ≡ length self.old.outcomes + 1) }
        ensures clients { OnOk result (length self.new.clients ≡ length self.old.clients) }
        ensures void { IfOk result (λ answer. (answer ≡ Stepped.Void) ↔ IsVoided self.new) }
        ensures versions { OnOk result (IsBased self.old.history → IsBased self.new.history) }
        ensures lawful { OnOk result ((plan : Plan) → self.old ≡ world_of hashed plan → IsLawfulWorld (with_event plan event.now) self.new) }
        ensures err { OnErr result (self.new ≡ self.old) }
    {
        every_write_is_based();
        hashed_is_a_setting();
        self.advance(event)
    }

    // Steps one event.
    fn advance(&mut self, event: &Event) -> Result<Stepped, NoMemory>
        requires known { CanStep (length self.old.clients) event.now }
        requires room { length self.old.outcomes < 2 ^ 32 - 1 }
        ensures ok { OnOk result (self.new ≡ stepped hashed event.now self.old) }
        ensures counted { OnOk result (length self.new.outcomes ≡ length self.old.outcomes + 1) }
        ensures clients { OnOk result (length self.new.clients ≡ length self.old.clients) }
        ensures void { IfOk result (λ answer. (answer ≡ Stepped.Void) ↔ IsVoided self.new) }
        ensures err { OnErr result (self.new ≡ self.old) }
    {
        self.happened.reserve(1)?;
        let happened = happen(
            self.alloc,
            &mut self.server,
            &mut self.clients,
            &mut self.settlements,
            &self.happened,
            event,
        )?;
        record_message(&mut self.record, &happened);
        let answer = stepped_by(&happened);
        self.happened.push_reserved(happened);
        Ok(answer)
    }
}
