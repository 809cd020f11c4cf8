mod calls;
mod log;

use crate::TurnLock;
use calls::{add, eight_add, finds, two_add};
use log::Log;
use std::alloc::Global;
use std::test::Fail;
use want_of_memory::WantOfMemory;

#[test]
fn a_pass_finds_what_was_committed(rt: HostRuntime) -> Result<(), Fail> {
    let (lock, mut root) = TurnLock::new(rt.alloc(), Log::new(rt.alloc()))?;
    add(&rt, &lock, &mut root, 7)?;
    let mut one = lock.split(&mut root);
    assert!(rt; root.number() == 0 && one.number() == 1);
    assert!(rt; finds(&rt, &lock, &mut one, &[(0, 7)]));
    add(&rt, &lock, &mut one, 8)?;
    assert!(rt; finds(&rt, &lock, &mut root, &[(0, 7), (1, 8)]));
    lock.join(&mut root, one);
    assert!(rt; lock.close(root).is(&[(0, 7), (1, 8)]));
    Ok(())
}

// Returns whether each caller from 1 to `callers` added exactly the numbers from 1 to `each`, in order.
fn has_numbers(alloc: Global, log: &Log, callers: u8, each: u64) -> Result<bool, WantOfMemory> {
    let mut wanted = Vec::new(alloc);
    for number in 1..=each {
        wanted.push(number)?;
    }
    for caller in 1..=callers {
        if log.numbers_of(alloc, caller)? != wanted {
            return Ok(false);
        }
    }
    Ok(true)
}

#[test]
fn two_threads_add_their_numbers_in_order(rt: HostRuntime) -> Result<(), Fail> {
    let log = two_add(&rt, rt.alloc(), 100)?;
    assert!(rt; log.pairs.len() == 200);
    assert!(rt; has_numbers(rt.alloc(), &log, 2, 100)?);
    Ok(())
}

#[test]
fn eight_threads_add_their_numbers_in_order(rt: HostRuntime) -> Result<(), Fail> {
    let log = eight_add(&rt, rt.alloc(), 100)?;
    assert!(rt; log.pairs.len() == 800);
    assert!(rt; has_numbers(rt.alloc(), &log, 8, 100)?);
    Ok(())
}
