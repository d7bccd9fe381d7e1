// Nets and doors in memory: what they give, and what they tell of the links that came back.
ghost use Rattle.std.specs.Prelude.{◌≡◌, ◌∷◌, [], All, Some, IfOk};
ghost use Rattle.outer_edge.specs.Nets.{IsPortOf};
ghost use Rattle.outer_edge.specs.MemoryNets.{IsUnused, NetState};

use crate::*;
use std::alloc::Global;
use std::test::Fail;

// Adds a link that gives these bytes, has room for three, and fails at its call of this number.
fn add_link(
    alloc: Global,
    links: &mut Vec<MemoryLink>,
    bytes: &[u8],
    failing: u64,
) -> Result<(), Fail>
    requires { All IsUnused links.old.items }
    ensures { All IsUnused links.new.items }
{
    let failing = [failing].to_vec(alloc)?;
    links.push(MemoryLink::new(alloc, bytes.to_vec(alloc)?, 3, failing)?)?;
    Ok(())
}

// A net of three links: two are sound, and the last one fails at its second call.
fn net_of_three(alloc: Global, failing: &[u64], door_failing: &[u64]) -> Result<MemoryNet, Fail>
    ensures { IfOk result (λ net. net.used_port ≡ None) }
{
    let mut links = Vec::new(alloc);
    add_link(alloc, &mut links, b"a", 9)?;
    add_link(alloc, &mut links, b"b", 9)?;
    add_link(alloc, &mut links, b"c", 2)?;
    let failing = failing.to_vec(alloc)?;
    let net = MemoryNet::new(alloc, links, failing, door_failing.to_vec(alloc)?)?;
    Ok(net)
}

// Answers one byte of a link by the same byte, and says whether both calls succeeded.
fn echo<L: Link>(link: &mut L) -> bool {
    let mut room = [0];
    let Ok(1) = link.read(&mut room) else {
        return false;
    };
    link.write(&room) == Ok(1)
}

// Dials once, and says how the link did, if one was given.
fn call<N: Net>(net: &mut N, port: u16) -> Option<bool>
    requires { IsPortOf (N.port net.old) port }
    ensures { N.port net.new ≡ Some port }
{
    let Ok(mut link) = net.dial(port) else {
        return None;
    };
    let is_sound = echo(&mut link);
    net.hang_up(link);
    Some(is_sound)
}

// Answers this many links at a door, and says how many did well.
fn serve<D: Door>(door: &mut D, count: u8) -> u8 {
    let mut served = 0_u8;
    for _ in 0..count {
        if let Ok(mut link) = door.accept() {
            if echo(&mut link) {
                served = served.saturating_add(1);
            }
            door.hang_up(link);
        }
    }
    served
}

// Listens, answers this many links, and shuts the door. It says how many did well, if a door was given.
fn serve_at<N: Net>(net: &mut N, port: u16, count: u8) -> Option<u8>
    requires { IsPortOf (N.port net.old) port }
    ensures { N.port net.new ≡ Some port }
{
    let Ok(mut door) = net.listen(port) else {
        return None;
    };
    let served = serve(&mut door, count);
    net.shut(door);
    Some(served)
}

// The bytes that the past links of a net took, one after another, and how many of them have a fault.
fn taken_in(alloc: Global, net: &MemoryNet) -> Result<(Vec<u8>, usize), Fail> {
    let mut bytes = Vec::new(alloc);
    let mut broken = 0_usize;
    for link in net.past_links().unwrap_or(&[]) {
        bytes.extend_from_slice(link.taken())?;
        if link.has_fault() {
            broken = broken.saturating_add(1);
        }
    }
    Ok((bytes, broken))
}

#[test]
fn links_are_dialed_in_order_and_remembered(rt: HostRuntime) -> Result<(), Fail> {
    let mut net = net_of_three(rt.alloc(), &[], &[])?;
    assert_eq!(rt; call(&mut net, 80), Some(true));
    assert_eq!(rt; call(&mut net, 80), Some(true));
    assert_eq!(rt; net.broken_count(), 0);
    assert_eq!(rt; call(&mut net, 80), Some(false));
    assert_eq!(rt; net.broken_count(), 1);
    assert_eq!(rt; net.fault_count(), 0);
    let (taken, broken) = taken_in(rt.alloc(), &net)?;
    assert_eq!(rt; taken.as_slice(), b"ab".as_slice());
    assert_eq!(rt; broken, 1);
    Ok(())
}

#[test]
fn a_dial_that_is_to_fail_takes_no_link(rt: HostRuntime) -> Result<(), Fail> {
    let mut net = net_of_three(rt.alloc(), &[2], &[])?;
    assert_eq!(rt; call(&mut net, 80), Some(true));
    assert_eq!(rt; call(&mut net, 80), None);
    assert_eq!(rt; net.fault_count(), 1);
    assert_eq!(rt; call(&mut net, 80), Some(true));
    assert_eq!(rt; call(&mut net, 80), Some(false));
    assert_eq!(rt; call(&mut net, 80), None);
    assert_eq!(rt; net.fault_count(), 2);
    Ok(())
}

#[test]
fn a_door_gives_all_links_that_are_left(rt: HostRuntime) -> Result<(), Fail> {
    let mut net = net_of_three(rt.alloc(), &[], &[])?;
    assert_eq!(rt; call(&mut net, 80), Some(true));
    assert_eq!(rt; serve_at(&mut net, 80, 2), Some(1));
    assert_eq!(rt; call(&mut net, 80), None);
    let (taken, broken) = taken_in(rt.alloc(), &net)?;
    assert_eq!(rt; taken.as_slice(), b"ab".as_slice());
    assert_eq!(rt; broken, 1);
    assert_eq!(rt; net.broken_count(), 1);
    Ok(())
}

#[test]
fn a_door_that_failed_is_a_fault_of_the_net_once_it_is_shut(rt: HostRuntime) -> Result<(), Fail> {
    let mut net = net_of_three(rt.alloc(), &[], &[1])?;
    assert_eq!(rt; serve_at(&mut net, 80, 3), Some(2));
    assert_eq!(rt; net.fault_count(), 1);
    assert_eq!(rt; net.broken_count(), 0);
    Ok(())
}

#[test]
fn a_listen_that_is_to_fail_gives_no_door(rt: HostRuntime) -> Result<(), Fail> {
    let mut net = net_of_three(rt.alloc(), &[1], &[])?;
    assert_eq!(rt; serve_at(&mut net, 80, 3), None);
    assert_eq!(rt; net.fault_count(), 1);
    assert_eq!(rt; serve_at(&mut net, 80, 3), Some(2));
    assert_eq!(rt; net.fault_count(), 1);
    Ok(())
}

#[test]
fn a_second_door_has_no_link_and_no_room(rt: HostRuntime) -> Result<(), Fail> {
    let mut net = net_of_three(rt.alloc(), &[], &[])?;
    let link = net.dial(80)?;
    assert_eq!(rt; serve_at(&mut net, 80, 2), Some(1));
    let mut door = net.listen(80)?;
    assert_eq!(rt; serve(&mut door, 1), 0);
    assert_eq!(rt; door.fault_count(), 1);
    assert!(rt; door.past_links().is_some());
    door.hang_up(link);
    assert!(rt; door.past_links().is_none());
    assert_eq!(rt; door.broken_count(), 0);
    assert!(rt; net.past_links().is_some());
    net.shut(door);
    assert!(rt; net.past_links().is_none());
    Ok(())
}

#[test]
fn a_net_without_room_for_a_link_tells_none(rt: HostRuntime) -> Result<(), Fail> {
    let alloc = rt.alloc();
    let mut net = MemoryNet::new(alloc, Vec::new(alloc), Vec::new(alloc), Vec::new(alloc))?;
    let link = MemoryLink::new(alloc, Vec::new(alloc), 0, [1].to_vec(alloc)?)?;
    assert!(rt; link.is_unused());
    let mut broken = link;
    assert_eq!(rt; broken.read(&mut [0]), Err(Failed));
    assert!(rt; !broken.is_unused());
    assert!(rt; net.past_links().is_some());
    net.hang_up(broken);
    assert!(rt; net.past_links().is_none());
    assert_eq!(rt; net.broken_count(), 1);
    Ok(())
}
