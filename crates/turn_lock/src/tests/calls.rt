//! Pairs added under the lock, each in a turn of its own.
ghost use Rattle.std.specs.Prelude.{◌≡◌, ◌++◌, ◌∷◌, ◌+◌, ◌<◌, [], length, IfOk, OnOk};
ghost use Rattle.turn_lock.specs.Passes.{known, IsPassOf};

use super::log::Log;
use crate::{Pass, TurnLock};
use std::alloc::Global;
use std::sync::Wait;
use std::thread::{Threads, join};
use want_of_memory::WantOfMemory;

pub fn add<R: Wait>(
    rt: &R,
    lock: &TurnLock<Log>,
    pass: &mut Pass<Log>,
    number: u64,
) -> Result<(), WantOfMemory>
    requires { IsPassOf lock.now pass.old }
    ensures of { IsPassOf lock.now pass.new }
    ensures number { (known pass.new).number ≡ (known pass.old).number }
    ensures root { ((known pass.new).given ≡ (known pass.old).given)
        × ((known pass.new).joined ≡ (known pass.old).joined) }
    ensures ok { OnOk result ((known pass.new).own ≡ (known pass.old).own ++ ((known pass.old).number, number) ∷ []) }
{
    let caller = pass.number();
    let mut turn = lock.enter(rt, pass);
    match turn.state().add(caller, number) {
        Ok(()) => {
            turn.commit_one();
            turn.leave();
            Ok(())
        }
        Err(e) => {
            turn.leave();
            Err(e)
        }
    }
}

/// Adds the numbers from 1 to `count`.
pub fn add_all<R: Wait>(
    rt: &R,
    lock: &TurnLock<Log>,
    mut pass: Pass<Log>,
    count: u64,
) -> Result<Pass<Log>, WantOfMemory>
    requires { IsPassOf lock.now pass }
    ensures { IfOk result (λ p. IsPassOf lock.now p) }
{
    for number in 0..count {
        add(rt, lock, &mut pass, number + 1)?;
    }
    Ok(pass)
}

/// Whether the pass finds these pairs in its turn.
pub fn finds<R: Wait>(
    rt: &R,
    lock: &TurnLock<Log>,
    pass: &mut Pass<Log>,
    wanted: &[(u8, u64)],
) -> bool
    requires { IsPassOf lock.now pass.old }
    ensures of { IsPassOf lock.now pass.new }
    ensures root { ((known pass.new).number ≡ (known pass.old).number)
        × ((known pass.new).given ≡ (known pass.old).given)
        × ((known pass.new).joined ≡ (known pass.old).joined) }
{
    let mut turn = lock.enter(rt, pass);
    let found = turn.state().is(wanted);
    turn.leave();
    found
}

/// A pass that has added its numbers.
type Added = Result<Pass<Log>, WantOfMemory>;

/// Two threads add the numbers from 1 to `count` each.
fn both_add<R: Threads + Wait + Sync>(
    rt: &R,
    lock: &TurnLock<Log>,
    one: Pass<Log>,
    two: Pass<Log>,
    count: u64,
) -> (Added, Added)
    requires { IsPassOf lock.now one × IsPassOf lock.now two }
    ensures { IfOk result.0 (λ p. IsPassOf lock.now p) × IfOk result.1 (λ p. IsPassOf lock.now p) }
{
    join(
        rt,
        move || -> Added
            requires { IsPassOf lock.now one }
            ensures { IfOk result (λ p. IsPassOf lock.entry.now p) }
        { add_all(rt, lock, one, count) },
        move || -> Added
            requires { IsPassOf lock.now two }
            ensures { IfOk result (λ p. IsPassOf lock.entry.now p) }
        { add_all(rt, lock, two, count) },
    )
}

/// The list once two passes of two threads have added the numbers from 1 to `count` each.
pub fn two_add<R: Threads + Wait + Sync>(
    rt: &R,
    alloc: Global,
    count: u64,
) -> Result<Log, WantOfMemory> {
    let (lock, mut root) = TurnLock::new(alloc, Log::new(alloc))?;
    let one = lock.split(&mut root);
    let two = lock.split(&mut root);
    let (one, two) = both_add(rt, &lock, one, two, count);
    lock.join(&mut root, one?);
    lock.join(&mut root, two?);
    Ok(lock.close(root))
}

/// Four threads add the numbers from 1 to `count` each.
fn four_add<R: Threads + Wait + Sync>(
    rt: &R,
    lock: &TurnLock<Log>,
    a: (Pass<Log>, Pass<Log>),
    b: (Pass<Log>, Pass<Log>),
    count: u64,
) -> ((Added, Added), (Added, Added))
    requires { IsPassOf lock.now a.0
        × IsPassOf lock.now a.1
        × IsPassOf lock.now b.0
        × IsPassOf lock.now b.1 }
    ensures { IfOk result.0.0 (λ p. IsPassOf lock.now p)
        × IfOk result.0.1 (λ p. IsPassOf lock.now p)
        × IfOk result.1.0 (λ p. IsPassOf lock.now p)
        × IfOk result.1.1 (λ p. IsPassOf lock.now p) }
{
    join(
        rt,
        move || -> (Added, Added)
            requires { IsPassOf lock.now a.0 × IsPassOf lock.now a.1 }
            ensures { IfOk result.0 (λ p. IsPassOf lock.entry.now p)
                × IfOk result.1 (λ p. IsPassOf lock.entry.now p) }
        { both_add(rt, lock, a.0, a.1, count) },
        move || -> (Added, Added)
            requires { IsPassOf lock.now b.0 × IsPassOf lock.now b.1 }
            ensures { IfOk result.0 (λ p. IsPassOf lock.entry.now p)
                × IfOk result.1 (λ p. IsPassOf lock.entry.now p) }
        { both_add(rt, lock, b.0, b.1, count) },
    )
}

// Two passes, with the next numbers.
fn split_two(lock: &TurnLock<Log>, root: &mut Pass<Log>) -> (Pass<Log>, Pass<Log>)
    requires of { IsPassOf lock.now root.old }
    requires root { (known root.old).number ≡ 0 }
    requires few { (known root.old).given < 255 }
    ensures of { IsPassOf lock.now root.new
        × IsPassOf lock.now result.0
        × IsPassOf lock.now result.1 }
    ensures root { ((known root.new).number ≡ 0)
        × ((known root.new).given ≡ (known root.old).given + 2)
        × ((known root.new).joined ≡ (known root.old).joined) }
{
    let one = lock.split(root);
    let two = lock.split(root);
    (one, two)
}

fn join_two(
    lock: &TurnLock<Log>,
    root: &mut Pass<Log>,
    two: (Added, Added),
) -> Result<(), WantOfMemory>
    requires of { IsPassOf lock.now root.old
        × IfOk two.0 (λ p. IsPassOf lock.now p)
        × IfOk two.1 (λ p. IsPassOf lock.now p) }
    requires root { (known root.old).number ≡ 0 }
    ensures { OnOk result (IsPassOf lock.now root.new
        × ((known root.new).number ≡ 0)
        × ((known root.new).given ≡ (known root.old).given)
        × (length (known root.new).joined ≡ length (known root.old).joined + 2)) }
{
    lock.join(root, two.0?);
    lock.join(root, two.1?);
    Ok(())
}

/// The list once eight passes of eight threads have added the numbers from 1 to `count` each.
pub fn eight_add<R: Threads + Wait + Sync>(
    rt: &R,
    alloc: Global,
    count: u64,
) -> Result<Log, WantOfMemory> {
    let (lock, mut root) = TurnLock::new(alloc, Log::new(alloc))?;
    let a = split_two(&lock, &mut root);
    let b = split_two(&lock, &mut root);
    let c = split_two(&lock, &mut root);
    let d = split_two(&lock, &mut root);
    let shared = &lock;
    let ((a, b), (c, d)) = join(
        rt,
        move || -> ((Added, Added), (Added, Added))
            requires { IsPassOf shared.now a.0
                × IsPassOf shared.now a.1
                × IsPassOf shared.now b.0
                × IsPassOf shared.now b.1 }
            ensures { IfOk result.0.0 (λ p. IsPassOf shared.entry.now p)
                × IfOk result.0.1 (λ p. IsPassOf shared.entry.now p)
                × IfOk result.1.0 (λ p. IsPassOf shared.entry.now p)
                × IfOk result.1.1 (λ p. IsPassOf shared.entry.now p) }
        { four_add(rt, shared, a, b, count) },
        move || -> ((Added, Added), (Added, Added))
            requires { IsPassOf shared.now c.0
                × IsPassOf shared.now c.1
                × IsPassOf shared.now d.0
                × IsPassOf shared.now d.1 }
            ensures { IfOk result.0.0 (λ p. IsPassOf shared.entry.now p)
                × IfOk result.0.1 (λ p. IsPassOf shared.entry.now p)
                × IfOk result.1.0 (λ p. IsPassOf shared.entry.now p)
                × IfOk result.1.1 (λ p. IsPassOf shared.entry.now p) }
        { four_add(rt, shared, c, d, count) },
    );
    join_two(&lock, &mut root, a)?;
    join_two(&lock, &mut root, b)?;
    join_two(&lock, &mut root, c)?;
    join_two(&lock, &mut root, d)?;
    Ok(lock.close(root))
}
