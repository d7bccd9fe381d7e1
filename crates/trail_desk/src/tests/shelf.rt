// A core whose step is a relation: a shelf with a value, whose writes may fail. A failed write leaves it before or after.
ghost use Rattle.std.specs.Prelude.{◌≡◌, ◌≤◌, ◌⊎◌, MatchBool};
ghost use Rattle.std.proofs.Common.{rules};

use crate::tests::threads::{closed_after_all, closed_after_two, has_twenty_each};
use crate::{Core, Entry, Opened};
use std::alloc::AllocError;
use std::marker::Brand;
use std::test::Fail;

#[derive(Debug, Drop)]
pub struct Shelf {
    limit: u64,
    value: u64,
    writes: u64,
    faults: u64,
}

// The answer is whether the write worked. Each third write fails, and each second one of these was made all the same.
impl Core<u64, bool> for Shelf {
    ghost takes = { λ shelf act. act ≤ shelf.limit };

    ghost steps = { λ old act gave new. (new.limit ≡ old.limit) × (old.faults ≤ new.faults) × MatchBool gave (new.value ≡ act) ((new.value ≡ old.value) ⊎ (new.value ≡ act)) };

    fn step(&mut self, act: &u64) -> Result<(bool, bool), AllocError> {
        self.writes = self.writes.wrapping_add(1);
        let fails = self.writes % 3 == 0;
        if fails {
            self.faults = self.faults.saturating_add(1);
        }
        if !fails || self.writes % 2 == 0 {
            self.value = *act;
        }
        Ok((!fails, !fails))
    }

    ghost goes_on_taking = { λ old act gave new other step may. Prim.search rules };
}

fn new_shelf() -> Shelf
    ensures { result.limit ≡ 4294967295 }
{
    Shelf {
        limit: 4_294_967_295,
        value: 0,
        writes: 0,
        faults: 0,
    }
}

// How many steps of a trail failed.
fn failed(trail: &[Entry<u64, bool>]) -> usize {
    trail.iter().filter(|entry| !entry.gave).count()
}

// The value after the last write that is known to have been made: that of the last step, if it worked.
fn last_value(trail: &[Entry<u64, bool>]) -> Option<u64> {
    match trail.last() {
        Some(entry) if entry.gave => Some(entry.act),
        _ => None,
    }
}

#[test]
fn two_threads_work_on_one_shelf(rt: HostRuntime) -> Result<(), Fail> {
    let opened = Opened::new(rt.alloc(), new_shelf(), 2)?;
    let (core, trail) = closed_after_two::<Shelf, bool, Brand, _>(&rt, opened).ok_or("no memory")?;
    assert!(rt; has_twenty_each(trail.as_slice(), 2));
    assert_eq!(rt; failed(trail.as_slice()), 13);
    assert_eq!(rt; core.faults, 13);
    assert_eq!(rt; last_value(trail.as_slice()), Some(core.value));
    Ok(())
}

#[test]
fn five_threads_work_on_one_shelf(rt: HostRuntime) -> Result<(), Fail> {
    let opened = Opened::new(rt.alloc(), new_shelf(), 5)?;
    let (core, trail) = closed_after_all::<Shelf, bool, Brand, _>(&rt, opened).ok_or("no memory")?;
    assert!(rt; has_twenty_each(trail.as_slice(), 5));
    assert_eq!(rt; failed(trail.as_slice()), 33);
    assert_eq!(rt; core.faults, 33);
    Ok(())
}
