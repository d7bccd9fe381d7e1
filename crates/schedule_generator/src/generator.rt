//! The generator.
ghost use Rattle.std.specs.Prelude.{◌≡◌, ◌≤◌, ◌++◌, IfOk, length, OnOk};
ghost use Rattle.schedule_generator.specs.Draws.{draws_of};
ghost use Rattle.schedule_generator.specs.Generated.{generated, generated_passes, steps_from};

use crate::draws::Draws;
use crate::steps::write_step;
use std::alloc::Global;
use sync_model::{Event, Schedule};
use wire_fields::{List, NoMemory, Octets};

// The passphrases of every generated schedule.
#[tactic(auto, unfolding(crate::specs::Generated::generated_passes))]
fn passes(alloc: Global) -> Result<List<Octets>, NoMemory>
    ensures { IfOk result (λ passes. passes ≡ generated_passes) }
{
    let mut passes = List::new(alloc);
    passes.push(Octets::from_slice(alloc, b"first")?)?;
    passes.push(Octets::from_slice(alloc, b"second")?)?;
    Ok(passes)
}

// The events of so many steps.
fn events(alloc: Global, clients: u32, steps: u32, seed: u64) -> Result<List<Event>, NoMemory>
    requires some { 1 ≤ clients }
    requires few { steps ≤ 500 }
    ensures { IfOk result (λ events. events ≡ steps_from clients steps 1 (draws_of seed)) }
{
    let mut draws = Draws::new(seed);
    let mut events = List::new(alloc);
    for _step in 0..steps {
        write_step(alloc, &mut events, &mut draws, clients)?;
    }
    Ok(events)
}

/// The schedule of so many clients and steps that a seed gives, with two passphrases.
///
/// Clients are 1 to 8, and steps at most 500, so that it has at most 11,500 events. It takes time linear in the steps.
#[tactic(auto, unfolding(crate::specs::Generated::generated))]
pub fn generate(alloc: Global, clients: u32, steps: u32, seed: u64) -> Result<Schedule, NoMemory>
    requires some { 1 ≤ clients }
    requires not_many { clients ≤ 8 }
    requires few { steps ≤ 500 }
    ensures { IfOk result (λ schedule. schedule ≡ generated clients steps seed) }
{
    Ok(Schedule {
        clients,
        seed,
        passes: passes(alloc)?,
        events: events(alloc, clients, steps, seed)?,
    })
}
