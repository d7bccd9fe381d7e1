//! The events of a client that make a request.
ghost use Rattle.std.specs.Prelude.{◌≡◌, ◌+◌, length, IfOk, OnOk, OnErr};
ghost use Rattle.sync_model.specs.Sending.{ask_effect, offer_effect};
ghost use Rattle.replay_client.specs.Happenings.{IsPlainOutcome};
ghost use Rattle.replay_messages.specs.Forms.{IsPlainCall};
ghost use Rattle.replay_world.specs.Asked.{IsSent, taken_back};
ghost use Rattle.replay_world.specs.Events.{IsNumber};
ghost use Rattle.replay_world.specs.Outcomes.{IsRequest};
ghost use Rattle.replay_world.specs.Steps.{Asks};

use crate::happened::Happened;
use replay_client::Client;
use replay_messages::request_message;
use std::alloc::Global;
use sync_messages::encode_to;
use sync_model::{Content, EventOutcome, Request};
use wire_fields::{NoMemory, Octets};

// The bytes of a client's request.
fn request_bytes(alloc: Global, client: u32, request: &Request<Content>) -> Result<Octets, NoMemory>
    requires { IsPlainCall request.now.call }
    ensures { IfOk result (IsRequest client request.now) }
{
    let message = request_message(alloc, client, request)?;
    encode_to(alloc, &message)
}

// The request that came of an event, if one came, with its bytes. Where these find no memory, the client takes it back.
fn send(
    alloc: Global,
    client: &mut Client,
    number: u32,
    outcome: EventOutcome,
) -> Result<Happened, NoMemory>
    requires { IsPlainOutcome outcome }
    ensures sent { IfOk result (IsSent number outcome) }
    ensures kept { OnOk result (client.new ≡ client.old) }
    ensures back { OnErr result (client.new ≡ taken_back client.old outcome) }
{
    let EventOutcome::Requested { client: _, request } = outcome else {
        return Ok(Happened::Void);
    };
    let Ok(bytes) = request_bytes(alloc, number, &request) else {
        client.withdraw(request);
        return Err(NoMemory);
    };
    Ok(Happened::Requested {
        client: number,
        request,
        bytes,
    })
}

/// A client asks for what the server has that is new to it, which this event requests.
pub(crate) fn ask(
    alloc: Global,
    clients: &mut [Client],
    number: u32,
    event: u32,
) -> Result<Happened, NoMemory>
    requires number { IsNumber (length clients.old) number }
    ensures asks { IfOk result (Asks number (ask_effect number event) clients.old clients.new) }
    ensures clients { OnErr result (clients.new ≡ clients.old) }
{
    let asking = &mut clients[number as usize - 1];
    let outcome = asking.ask(number, event)?;
    send(alloc, asking, number, outcome)
}

/// A client makes a commit of all that it holds, which this event requests.
pub(crate) fn offer(
    alloc: Global,
    clients: &mut [Client],
    number: u32,
    event: u32,
) -> Result<Happened, NoMemory>
    requires number { IsNumber (length clients.old) number }
    ensures asks { IfOk result (Asks number (offer_effect number event) clients.old clients.new) }
    ensures clients { OnErr result (clients.new ≡ clients.old) }
{
    let offering = &mut clients[number as usize - 1];
    let outcome = offering.offer(number, event)?;
    send(alloc, offering, number, outcome)
}
