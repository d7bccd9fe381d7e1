//! What passes between the clients and the server.
ghost use Rattle.std.specs.Prelude.{◌≡◌, length, reverse, IfOk, OnErr};
ghost use Rattle.std.specs.List.{AllByRecursion};
ghost use Rattle.sync_model.specs.declared.message.Content.{Content as ContentOf};
ghost use Rattle.sync_model.specs.declared.message.Entry.{Entry as EntryOf};
ghost use Rattle.replay_world.specs.Outcomes.{AreKept, IsOfClient};
ghost use Rattle.replay_world.specs.Steps.{Delivers, Receives};

use crate::acting::quiet;
use crate::happened::Happened;
use crate::lookups::{delivery_made, request_made};
use crate::run_server::RunServer;
use replay_client::Client;
use replay_messages::read_reply;
use std::alloc::Global;
use wire_fields::NoMemory;

/// The server handles the request that an event made.
pub(crate) fn deliver(
    server: &mut RunServer,
    happened: &[Happened],
    event: u32,
) -> Result<Happened, NoMemory>
    requires { AreKept server.old (reverse happened.now) }
    ensures delivers { IfOk result (Delivers (reverse happened.now) event server.old server.new) }
    ensures err { OnErr result (server.new ≡ server.old) }
{
    let Some(asked) = request_made(happened, event) else {
        return Ok(Happened::Void);
    };
    let before = server.version();
    let bytes = server.deliver(asked.client, asked.request, asked.bytes.as_slice())?;
    Ok(Happened::Delivered {
        request: event,
        before,
        bytes,
    })
}

/// The reply that a delivery gave reaches its client, if that waits for it.
pub(crate) fn receive(
    alloc: Global,
    server: &RunServer,
    clients: &mut [Client],
    happened: &[Happened],
    event: u32,
) -> Result<Happened, NoMemory>
    requires kept { AreKept server.now (reverse happened.now) }
    requires own { AllByRecursion (IsOfClient (length clients.old)) (reverse happened.now) }
    ensures receives { IfOk result (Receives server.now (reverse happened.now) event clients.old clients.new) }
    ensures clients { OnErr result (clients.new ≡ clients.old) }
{
    let _ = server;
    let Some(delivery) = delivery_made(happened, event) else {
        return Ok(Happened::Void);
    };
    let Some(asked) = request_made(happened, delivery.request) else {
        return Ok(Happened::Void);
    };
    let asking = &mut clients[asked.client as usize - 1];
    if !asking.awaits(delivery.request) {
        return Ok(Happened::Void);
    }
    let message = read_reply(alloc, delivery.bytes.as_slice())?;
    let outcome = asking.answer(asked.request, &message)?;
    Ok(quiet(outcome))
}
