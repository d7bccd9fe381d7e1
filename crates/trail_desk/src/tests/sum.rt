// A core whose step is a function: a number that grows, and answers its new value.
ghost use Rattle.std.specs.Prelude.{◌≡◌, ◌+◌, min};

use crate::tests::threads::{closed_after_all, closed_after_two, has_twenty_each};
use crate::{Core, Entry, Opened};
use std::alloc::AllocError;
use std::marker::Brand;
use std::test::Fail;

#[derive(Debug, Drop)]
pub struct Sum {
    pub value: u64,
}

impl Core<u64, u64> for Sum {
    ghost takes = { λ _ _. Unit {0} };

    ghost steps = { λ old act gave new. (new.value ≡ min (old.value + act) 18446744073709551615) × (gave ≡ new.value) };

    fn step(&mut self, act: &u64) -> Result<(u64, u64), AllocError> {
        self.value = self.value.saturating_add(*act);
        Ok((self.value, self.value))
    }

    ghost goes_on_taking = { λ _ _ _ _ _ _ may. may };
}

// The value that a trail leads to from 0, where each of its answers is right.
fn replayed(trail: &[Entry<u64, u64>]) -> Option<u64> {
    let mut value = 0u64;
    for entry in trail {
        value = value.saturating_add(entry.act);
        if entry.gave != value {
            return None;
        }
    }
    Some(value)
}

#[test]
fn two_threads_work_on_one_sum(rt: HostRuntime) -> Result<(), Fail> {
    let opened = Opened::new(rt.alloc(), Sum { value: 0 }, 2)?;
    let (core, trail) = closed_after_two::<Sum, u64, Brand, _>(&rt, opened).ok_or("no memory")?;
    assert!(rt; has_twenty_each(trail.as_slice(), 2));
    assert_eq!(rt; replayed(trail.as_slice()), Some(60));
    assert_eq!(rt; core.value, 60);
    Ok(())
}

#[test]
fn five_threads_work_on_one_sum(rt: HostRuntime) -> Result<(), Fail> {
    let opened = Opened::new(rt.alloc(), Sum { value: 0 }, 5)?;
    let (core, trail) = closed_after_all::<Sum, u64, Brand, _>(&rt, opened).ok_or("no memory")?;
    assert!(rt; has_twenty_each(trail.as_slice(), 5));
    assert_eq!(rt; replayed(trail.as_slice()), Some(300));
    assert_eq!(rt; core.value, 300);
    Ok(())
}
