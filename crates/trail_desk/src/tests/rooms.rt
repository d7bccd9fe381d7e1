// One thread at two desks in one call, whose steps one source of tickets orders.
ghost use Rattle.std.specs.Prelude.{◌≡◌};

use crate::tests::sum::Sum;
use crate::{Opened, Room, Tickets};
use std::marker::Brand;
use std::process::Abort;
use std::sync::Wait;
use std::test::Fail;

fn at_two_desks<B: Room, D: Room, R: Wait + Abort>(
    rt: &R,
    first: Opened<Sum, u64, u64>,
    second: Opened<Sum, u64, u64>,
) -> Result<(), Fail>
    requires first { first.table ≡ B.table }
    requires second { second.table ≡ D.table }
{
    let tickets = Tickets::new();
    let (one, mut ones) = first.named::<B>();
    let (two, mut twos) = second.named::<D>();
    assert!(rt; ones.len() == 1 && twos.len() == 1);
    let mine = &mut ones[0];
    let other = &mut twos[0];
    assert_eq!(rt; one.act(rt, mine, &tickets, 3)?, 3);
    other.raise(mine.last());
    assert_eq!(rt; two.act(rt, other, &tickets, 4)?, 4);
    assert!(rt; mine.last() < other.last());
    assert_eq!(rt; one.look(rt, mine, |core| core.value), 3);
    assert!(rt; mine.seat() == 1 && mine.calls() == 1);
    assert!(rt; other.last() < tickets.draw_above(rt, other.last()));
    Ok(())
}

#[test]
fn two_desks_have_one_order(rt: HostRuntime) -> Result<(), Fail> {
    let first = Opened::new(rt.alloc(), Sum { value: 0 }, 1)?;
    let second = Opened::new(rt.alloc(), Sum { value: 0 }, 1)?;
    at_two_desks::<Brand, Brand, _>(&rt, first, second)
}
