ghost use Rattle.std.specs.Prelude.{◌≡◌, ◌+◌, ◌<◌, [], length, IfOk, OnOk};
ghost use Rattle.replay_world.specs.Events.{CanStep};

use super::*;
use client_tags::Kind;
use std::alloc::Global;
use std::test::Fail;
use sync_model::{Edit, Event, Schedule};
use sync_values::Preference;
use wire_fields::{List, NoMemory, Octets};

// A schedule of so many clients, without events.
fn plan(alloc: Global, clients: u32) -> Schedule
    ensures clients { result.clients ≡ clients }
    ensures passes { result.passes ≡ [] }
{
    Schedule {
        clients,
        seed: 0,
        passes: List::new(alloc),
        events: List::new(alloc),
    }
}

#[test]
fn world_without_events(rt: HostRuntime) -> Result<(), Fail> {
    let world = World::new(rt.alloc(), &plan(rt.alloc(), 1))?;
    assert_eq!(rt;
        world.report()?.as_slice(),
        b"events 0 void 0\nserver version 0 keys 0\nclient 1 caught-up\n\
          side 1 nigori mark 0 due 0 reseal 0 pending 0 mailbox 0\n\
          side 1 preference mark 0 due 0 reseal 0 pending 0 mailbox 0\n\
          side 1 password mark 0 due 0 reseal 0 pending 0 mailbox 0\n\
          requests 0 deliveries 0\n\
          digest e3b0c44298fc1c149afbf4c8996fb92427ae41e4649b934ca495991b7852b855\n"
            .as_slice()
    );
    Ok(())
}

// Client 1 sets the preference `a`.
fn set_a(alloc: Global, value: &[u8]) -> Result<Event, NoMemory>
    ensures { IfOk result (λ event. CanStep 1 event) }
{
    Ok(Event::Edit {
        client: 1,
        edit: Edit::SetPreference(Preference {
            name: Octets::from_slice(alloc, b"a")?,
            value: Octets::from_slice(alloc, value)?,
            extra: Octets::new(alloc),
        }),
    })
}

// The event is stepped in a world of one client.
fn go(world: &mut World, event: &Event) -> Result<Stepped, NoMemory>
    requires can { CanStep 1 event.now }
    requires one { length world.old.clients ≡ 1 }
    requires few { length world.old.outcomes < 100 }
    ensures one { OnOk result (length world.new.clients ≡ 1) }
    ensures counted { OnOk result (length world.new.outcomes ≡ length world.old.outcomes + 1) }
{
    world.step(event)
}

#[test]
fn a_commit_that_is_delivered_three_times_is_stored_once(rt: HostRuntime) -> Result<(), Fail> {
    let alloc = rt.alloc();
    let (client, kind) = (1, Kind::Preference);
    let mut world = World::new(alloc, &plan(alloc, 1))?;
    let edit = set_a(alloc, b"1")?;
    assert_eq!(rt; go(&mut world, &edit)?, Stepped::Done);
    assert_eq!(rt;
        go(&mut world, &Event::Gather { client, kind })?,
        Stepped::Done
    );
    assert_eq!(rt; go(&mut world, &Event::Offer { client })?, Stepped::Done);
    assert_eq!(rt;
        go(&mut world, &Event::Deliver { event: 3 })?,
        Stepped::Done
    );
    assert_eq!(rt;
        go(&mut world, &Event::Deliver { event: 3 })?,
        Stepped::Done
    );
    assert_eq!(rt;
        go(&mut world, &Event::Deliver { event: 3 })?,
        Stepped::Done
    );
    assert_eq!(rt; go(&mut world, &Event::Answer { event: 4 })?, Stepped::Done);
    assert_eq!(rt;
        go(&mut world, &Event::Post { client, kind })?,
        Stepped::Done
    );
    assert_eq!(rt;
        go(&mut world, &Event::Turn { client, kind })?,
        Stepped::Done
    );
    assert_eq!(rt;
        world.report()?.as_slice(),
        b"events 9 void 0\nserver version 1 keys 1\nentity 1 preference Kx2jO7xVq8+3lJZeivRPONho7EY= plain a 1\n\
          client 1 behind\n\
          side 1 nigori mark 0 due 0 reseal 0 pending 0 mailbox 0\n\
          side 1 preference mark 0 due 0 reseal 0 pending 0 mailbox 0\n\
          side 1 password mark 0 due 0 reseal 0 pending 0 mailbox 0\n\
          value 1 preference Kx2jO7xVq8+3lJZeivRPONho7EY= known 1 a 1\nfate 1 preference 1 committed 1\n\
          requests 1 deliveries 3\n\
          digest 6f6386acccad558cedbe5663a0f99b667cae34d0f7879b18365f99e58b9f352b\n"
            .as_slice()
    );
    Ok(())
}

// Want of memory is not told where nothing is to be done.
#[test]
fn what_cannot_happen_is_void(rt: HostRuntime) -> Result<(), Fail> {
    let alloc = rt.alloc();
    let (client, kind) = (1, Kind::Preference);
    let mut world = World::new(alloc, &plan(alloc, 1))?;
    // Nothing is held, posted or waiting, and there is no such request.
    assert_eq!(rt; go(&mut world, &Event::Offer { client })?, Stepped::Void);
    assert_eq!(rt;
        go(&mut world, &Event::Post { client, kind })?,
        Stepped::Void
    );
    assert_eq!(rt;
        go(&mut world, &Event::Turn { client, kind })?,
        Stepped::Void
    );
    assert_eq!(rt;
        go(&mut world, &Event::Deliver { event: 1 })?,
        Stepped::Void
    );
    // A client that waits for a reply neither asks nor gathers.
    assert_eq!(rt; go(&mut world, &Event::Ask { client })?, Stepped::Done);
    assert_eq!(rt; go(&mut world, &Event::Ask { client })?, Stepped::Void);
    assert_eq!(rt;
        go(&mut world, &Event::Gather { client, kind })?,
        Stepped::Void
    );
    // A reply reaches a client that waits for it, once.
    assert_eq!(rt;
        go(&mut world, &Event::Deliver { event: 5 })?,
        Stepped::Done
    );
    assert_eq!(rt; go(&mut world, &Event::Answer { event: 8 })?, Stepped::Done);
    assert_eq!(rt; go(&mut world, &Event::Answer { event: 8 })?, Stepped::Void);
    Ok(())
}

#[test]
fn an_edit_of_too_long_texts_is_void(rt: HostRuntime) -> Result<(), Fail> {
    let alloc = rt.alloc();
    let mut world = World::new(alloc, &plan(alloc, 1))?;
    // Its name has one byte.
    let long = vec![in alloc; b'v'; 16_384]?;
    let edit = set_a(alloc, &long)?;
    assert_eq!(rt; go(&mut world, &edit)?, Stepped::Void);
    let edit = set_a(alloc, &long[1..])?;
    assert_eq!(rt; go(&mut world, &edit)?, Stepped::Done);
    Ok(())
}
