//! Steps: which client is drawn, and what it does.
ghost use Rattle.std.specs.Prelude.{◌≡◌, ◌+◌, ◌<◌, ◌++◌, ◌^◌, length, OnOk};
ghost use Rattle.schedule_generator.specs.Steps.{action_of, done, step};

use crate::draws::Draws;
use crate::edits::{delete_password, delete_preference, set_password, set_preference};
use crate::rounds::write_round;
use std::alloc::Global;
use sync_model::Event;
use wire_fields::{List, NoMemory};

/// What a client does in a step.
#[derive(Clone, Copy, Debug, PartialEq, Eq)]
pub enum Action {
    SetPreference,
    DeletePreference,
    SetPassword,
    DeletePassword,
    Crash,
    SetPass,
    GivePass,
    /// It stops within an edit that was kept.
    Cut,
    /// It asks, and then commits.
    Round,
}

// What a number below 100 lets a client do.
fn action_of(number: u32) -> Action
    ensures { result ≡ action_of number }
{
    match number {
        0..=29 => Action::SetPreference,
        30..=34 => Action::DeletePreference,
        35..=49 => Action::SetPassword,
        50..=53 => Action::DeletePassword,
        54 => Action::Crash,
        55 => Action::SetPass,
        56..=58 => Action::GivePass,
        59 => Action::Cut,
        _ => Action::Round,
    }
}

// What a client does, behind some events.
#[tactic(auto, unfolding(crate::specs::Steps::done))]
fn write_action(
    alloc: Global,
    events: &mut List<Event>,
    draws: &mut Draws,
    action: Action,
    client: u32,
) -> Result<(), NoMemory>
    requires room { length events.now + 14 < 2 ^ 32 }
    ensures events { OnOk result (events.new ≡ events.old ++ (done action client (length events.old + 1) draws.old).events) }
    ensures rest { OnOk result (draws.new ≡ (done action client (length events.old + 1) draws.old).rest) }
{
    match action {
        Action::SetPreference => {
            let edit = set_preference(alloc, draws)?;
            events.push(Event::Edit { client, edit })
        }
        Action::DeletePreference => {
            let edit = delete_preference(alloc, draws)?;
            events.push(Event::Edit { client, edit })
        }
        Action::SetPassword => {
            let edit = set_password(alloc, draws)?;
            events.push(Event::Edit { client, edit })
        }
        Action::DeletePassword => {
            let edit = delete_password(alloc, draws)?;
            events.push(Event::Edit { client, edit })
        }
        Action::Crash => events.push(Event::Crash { client }),
        Action::SetPass => {
            let pass = draws.below(2) + 1;
            events.push(Event::SetPass { client, pass })
        }
        Action::GivePass => {
            let pass = draws.below(2) + 1;
            events.push(Event::GivePass { client, pass })
        }
        Action::Cut => {
            let edit = set_preference(alloc, draws)?;
            let kept = true;
            events.push(Event::Cut { client, kept, edit })
        }
        Action::Round => {
            let first = events.len() as u32 + 1;
            write_round(events, draws, client, first)
        }
    }
}

/// Adds a step of one of so many clients behind some events.
#[tactic(auto, unfolding(crate::specs::Steps::step))]
pub(crate) fn write_step(
    alloc: Global,
    events: &mut List<Event>,
    draws: &mut Draws,
    clients: u32,
) -> Result<(), NoMemory>
    requires some { 0 < clients }
    requires room { length events.now + 14 < 2 ^ 32 }
    ensures events { OnOk result (events.new ≡ events.old ++ (step clients (length events.old + 1) draws.old).events) }
    ensures rest { OnOk result (draws.new ≡ (step clients (length events.old + 1) draws.old).rest) }
{
    let client = draws.below(clients) + 1;
    let action = action_of(draws.below(100));
    write_action(alloc, events, draws, action, client)
}
