// Worked by hand from what a list of items, or of slots, is after each call.
use super::*;
use std::alloc::Global;
use std::test::Fail;
use wire_fields::NoMemory;

// Adds an item of a version, if that is above all others.
fn add_at(chain: &mut Chain<u64>, version: u64) -> Result<Option<usize>, NoMemory> {
    if version <= chain.last_version() {
        return Ok(None);
    }
    chain.reserve(1)?;
    Ok(Some(chain.add(version, version)))
}

// Adds an item of the next version.
fn add_next(chain: &mut Chain<u64>) -> Result<usize, NoMemory> {
    let Some(version) = chain.last_version().checked_add(1) else {
        return Err(NoMemory);
    };
    chain.reserve(1)?;
    Ok(chain.add(version, version))
}

// Replaces an item by one of the next version, and tells whether it was of an earlier one.
fn touch_next(chain: &mut Chain<u64>, slot: usize) -> bool {
    let Some(version) = chain.last_version().checked_add(1) else {
        return false;
    };
    slot < chain.len() && chain.touch(slot, version, version) < version
}

// The item in a slot, if that is one of the chain's.
fn item_of(chain: &Chain<u64>, slot: usize) -> Option<u64> {
    if slot < chain.len() {
        Some(*chain.item(slot))
    } else {
        None
    }
}

#[test]
fn an_item_that_is_touched_comes_last(rt: HostRuntime) -> Result<(), Fail> {
    let mut chain = Chain::new(rt.alloc());
    assert!(rt; chain.is_empty());
    for slot in 0..3 {
        assert_eq!(rt; add_next(&mut chain)?, slot);
    }
    assert!(rt; touch_next(&mut chain, 0));
    assert_eq!(rt; chain.len(), 3);
    assert_eq!(rt; chain.since(1, 10)?.as_slice(), [1, 2, 0].as_slice());
    for (slot, item) in [(0, Some(4)), (1, Some(2)), (2, Some(3)), (3, None)] {
        assert_eq!(rt; item_of(&chain, slot), item);
    }
    Ok(())
}

#[test]
fn what_is_above_a_mark_is_given_in_its_order(rt: HostRuntime) -> Result<(), Fail> {
    let mut chain = Chain::new(rt.alloc());
    assert_eq!(rt; chain.since(0, 10)?.len(), 0);
    for (slot, version) in [5, 7, 8, 9].iter().enumerate() {
        assert_eq!(rt; add_at(&mut chain, *version)?, Some(slot));
    }
    assert_eq!(rt; add_at(&mut chain, 9)?, None);
    let rows: [(u64, usize, &[usize], usize); 7] = [
        (0, 10, &[0, 1, 2, 3], 4),
        (4, 4, &[0, 1, 2, 3], 4),
        (5, 2, &[1, 2], 3),
        (6, 2, &[1, 2], 3),
        (8, 2, &[3], 1),
        (8, 0, &[], 1),
        (9, 2, &[], 0),
    ];
    for (mark, max, slots, count) in rows {
        assert_eq!(rt; chain.since(mark, max)?.as_slice(), slots);
        assert_eq!(rt; chain.count_above(mark), count);
    }
    Ok(())
}

#[test]
fn a_slot_leaves_a_queue_from_its_place(rt: HostRuntime) -> Result<(), Fail> {
    let mut queue = DueQueue::new(rt.alloc());
    assert!(rt; queue.is_empty());
    assert_eq!(rt; queue.first(), None);
    queue.reserve(6)?;
    queue.push(4);
    queue.push(0);
    queue.push(6);
    queue.remove(0);
    assert_eq!(rt; queue.len(), 2);
    assert_eq!(rt; queue.first(), Some(4));
    assert_eq!(rt; queue.after(4), Some(6));
    assert_eq!(rt; queue.after(6), None);
    Ok(())
}

const ITEMS: usize = 10_000;

// The slot that is touched at a step of a round: the steps go by sevens.
fn slot_at(step: usize, round: usize) -> usize {
    step.wrapping_mul(7).wrapping_add(round) % ITEMS
}

// The slots of the last round that were touched behind this many others, at most 500.
fn last_touched(alloc: Global, steps: usize) -> Result<Vec<usize>, NoMemory> {
    let mut slots = Vec::new(alloc);
    for step in steps..ITEMS.min(steps.saturating_add(500)) {
        slots.push(slot_at(step, 2))?;
    }
    Ok(slots)
}

// The versions of the last round are 30,001 to 40,000.
#[test]
fn items_that_are_touched_three_times_stay_in_order(rt: HostRuntime) -> Result<(), Fail> {
    let mut chain = Chain::new(rt.alloc());
    assert_eq!(rt; chain.last_version(), 0);
    for item in 0..ITEMS {
        assert_eq!(rt; add_next(&mut chain)?, item);
    }
    for round in 0..3 {
        for step in 0..ITEMS {
            assert!(rt; touch_next(&mut chain, slot_at(step, round)));
        }
    }
    assert_eq!(rt; chain.last_version(), 40_000);
    let marks = [
        (0, 0),
        (10_000, 0),
        (29_999, 0),
        (30_000, 0),
        (30_001, 1),
        (32_500, 2_500),
        (35_000, 5_000),
        (39_501, 9_501),
        (39_999, 9_999),
        (40_000, 10_000),
    ];
    for (mark, steps) in marks {
        let wanted = last_touched(rt.alloc(), steps)?;
        assert_eq!(rt; chain.since(mark, 500)?.as_slice(), wanted.as_slice());
        assert_eq!(rt; chain.count_above(mark), ITEMS.saturating_sub(steps));
    }
    Ok(())
}
