//! What each event makes of the parts of a world.
ghost use Rattle.std.specs.Prelude.{◌≡◌, ℕ, ◌+◌, ◌-◌, ◌^◌, ◌<◌, length, reverse, IfOk, OnErr};
ghost use Rattle.std.specs.List.{AllByRecursion};
ghost use Rattle.replay_world.specs.Events.{CanStep};
ghost use Rattle.replay_world.specs.Outcomes.{AreKept, IsOfClient};
ghost use Rattle.replay_world.specs.Steps.{Steps};

use crate::acting::{edit, gather, post, turn};
use crate::asking::{ask, offer};
use crate::happened::Happened;
use crate::passing::{deliver, receive};
use crate::run_server::RunServer;
use replay_client::Client;
use std::alloc::Global;
use sync_model::{Event, Settlement};
use wire_fields::NoMemory;

/// What comes of the next event, with the server, the clients and the settlements after it.
pub(crate) fn happen(
    alloc: Global,
    server: &mut RunServer,
    clients: &mut [Client],
    settlements: &mut Vec<Settlement>,
    happened: &[Happened],
    event: &Event,
) -> Result<Happened, NoMemory>
    requires known { CanStep (length clients.old) event.now }
    requires room { length happened.now < 2 ^ 32 - 1 }
    requires kept { AreKept server.old (reverse happened.now) }
    requires own { AllByRecursion (IsOfClient (length clients.old)) (reverse happened.now) }
    ensures steps { IfOk result (λ next. (seed : ℕ) → Steps seed event.now (reverse happened.now) server.old server.new
        clients.old clients.new settlements.old.items settlements.new.items next) }
    ensures server { OnErr result (server.new ≡ server.old) }
    ensures clients { OnErr result (clients.new ≡ clients.old) }
    ensures settlements { OnErr result (settlements.new.items ≡ settlements.old.items) }
{
    match event {
        Event::Edit {
            client,
            edit: change,
        } => edit(clients, *client, change, settlements),
        Event::Turn { client, kind } => turn(clients, *client, *kind, settlements),
        Event::Gather { client, kind } => gather(clients, *client, *kind),
        Event::Post { client, kind } => post(clients, *client, *kind),
        Event::Ask { client } => ask(alloc, clients, *client, happened.len() as u32 + 1),
        Event::Offer { client } => offer(alloc, clients, *client, happened.len() as u32 + 1),
        Event::Deliver { event } => deliver(server, happened, *event),
        Event::Answer { event } => receive(alloc, server, clients, happened, *event),
        Event::Cut { .. }
        | Event::Lose { .. }
        | Event::Crash { .. }
        | Event::SetPass { .. }
        | Event::GivePass { .. } => unreachable!(),
    }
}
