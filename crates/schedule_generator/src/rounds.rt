//! Rounds: a client asks the server for what is new to it, and then commits what it has to send.
ghost use Rattle.std.specs.Prelude.{◌≡◌, ◌+◌, ◌<◌, ◌++◌, ◌^◌, OnOk};
ghost use Rattle.schedule_generator.specs.Draws.{rest};
ghost use Rattle.schedule_generator.specs.Steps.{posts_and_turns, gathers, reception, deliveries, asked, committed, round};

use crate::draws::Draws;
use sync_model::{Event, Kind};
use wire_fields::{List, NoMemory};

#[tactic(auto, unfolding(crate::specs::Steps::posts_and_turns))]
fn post_and_turn(events: &mut List<Event>, client: u32) -> Result<(), NoMemory>
    ensures { OnOk result (events.new ≡ events.old ++ posts_and_turns client) }
{
    events.push(Event::Post {
        client,
        kind: Kind::Nigori,
    })?;
    events.push(Event::Post {
        client,
        kind: Kind::Preference,
    })?;
    events.push(Event::Post {
        client,
        kind: Kind::Password,
    })?;
    events.push(Event::Turn {
        client,
        kind: Kind::Nigori,
    })?;
    events.push(Event::Turn {
        client,
        kind: Kind::Preference,
    })?;
    events.push(Event::Turn {
        client,
        kind: Kind::Password,
    })
}

#[tactic(auto, unfolding(crate::specs::Steps::gathers))]
fn gather(events: &mut List<Event>, client: u32) -> Result<(), NoMemory>
    ensures { OnOk result (events.new ≡ events.old ++ gathers client) }
{
    events.push(Event::Gather {
        client,
        kind: Kind::Nigori,
    })?;
    events.push(Event::Gather {
        client,
        kind: Kind::Preference,
    })?;
    events.push(Event::Gather {
        client,
        kind: Kind::Password,
    })
}

// The reply of a delivery arrives, or is lost.
#[tactic(auto, unfolding(crate::specs::Steps::reception))]
fn reception(draws: &mut Draws, client: u32, delivery: u32) -> Event
    ensures drawn { result ≡ reception client delivery draws.old }
    ensures rest { draws.new ≡ rest draws.old }
{
    if draws.below(8) == 0 {
        Event::Lose { client }
    } else {
        Event::Answer { event: delivery }
    }
}

// A request is delivered once or twice.
#[tactic(auto, unfolding(crate::specs::Steps::deliveries))]
fn deliver(events: &mut List<Event>, draws: &mut Draws, request: u32) -> Result<(), NoMemory>
    ensures events { OnOk result (events.new ≡ events.old ++ deliveries request draws.old) }
    ensures rest { OnOk result (draws.new ≡ rest draws.old) }
{
    events.push(Event::Deliver { event: request })?;
    if draws.below(4) == 0 {
        events.push(Event::Deliver { event: request })
    } else {
        Ok(())
    }
}

// What is new to the client.
#[tactic(auto, unfolding(crate::specs::Steps::asked))]
fn ask(events: &mut List<Event>, draws: &mut Draws, client: u32, first: u32) -> Result<(), NoMemory>
    requires room { first + 1 < 2 ^ 32 }
    ensures events { OnOk result (events.new ≡ events.old ++ asked client first draws.old) }
    ensures rest { OnOk result (draws.new ≡ rest draws.old) }
{
    events.push(Event::Ask { client })?;
    events.push(Event::Deliver { event: first })?;
    events.push(reception(draws, client, first + 1))?;
    post_and_turn(events, client)
}

// What the client has to send.
#[tactic(auto, unfolding(crate::specs::Steps::committed))]
fn commit(
    events: &mut List<Event>,
    draws: &mut Draws,
    client: u32,
    offer: u32,
) -> Result<(), NoMemory>
    requires room { offer + 1 < 2 ^ 32 }
    ensures events { OnOk result (events.new ≡ events.old ++ committed client offer draws.old) }
    ensures rest { OnOk result (draws.new ≡ rest (rest draws.old)) }
{
    gather(events, client)?;
    events.push(Event::Offer { client })?;
    deliver(events, draws, offer)?;
    events.push(reception(draws, client, offer + 1))?;
    post_and_turn(events, client)
}

/// Adds a round of a client behind some events, of which its first has a number.
#[tactic(auto, unfolding(crate::specs::Steps::round))]
pub(crate) fn write_round(
    events: &mut List<Event>,
    draws: &mut Draws,
    client: u32,
    first: u32,
) -> Result<(), NoMemory>
    requires room { first + 13 < 2 ^ 32 }
    ensures events { OnOk result (events.new ≡ events.old ++ (round client first draws.old).events) }
    ensures rest { OnOk result (draws.new ≡ (round client first draws.old).rest) }
{
    ask(events, draws, client, first)?;
    commit(events, draws, client, first + 12)
}
