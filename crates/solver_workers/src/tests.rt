ghost use Rattle.std.specs.Prelude.{◌≡◌, false};
ghost use Rattle.board_laws.specs.Callers.{holds_pin};
ghost use Rattle.turn_lock.specs.Passes.{known, IsPassOf};

use crate::{Judge, Quiet, ask};
use board_definitions::Law;
use finding_definitions::{Finding, Measure};
use quote_board::Board;
use scan_types::{Name, Outcome, Sheet, VoidRule, WantOfMemory};
use std::alloc::Global;
use std::sync::Wait;
use std::sync::atomic::{AtomicU64, Ordering};
use std::test::Fail;
use std::thread;
use std::thread::{Threads, join};
use turn_lock::{Pass, TurnLock};

/// How often a judging looks before it gives up.
const LOOKS: u32 = 10_000_000;

/// A law that allows every finding.
#[derive(Drop)]
struct Anything;

impl Law for Anything {
    ghost allows = { λ law offers finding. Unit {0} };
}

/// Judges each sheet as coherent, once the other caller has begun so many judgings.
#[derive(Drop)]
struct Watch<'a> {
    law: Anything,
    mine: &'a AtomicU64,
    other: &'a AtomicU64,
    wanted: u64,
    ran_out: &'a AtomicU64,
}

impl Watch<'_> {
    fn wait_for_other(&self) {
        for _ in 0..LOOKS {
            if self.other.load(Ordering::SeqCst) >= self.wanted {
                return;
            }
            thread::yield_now();
        }
        self.ran_out.store(1, Ordering::SeqCst);
    }
}

impl Judge for Watch<'_> {
    type W = Anything;

    ghost law_of = { λ watch. watch.law };

    fn law(&self) -> &Anything {
        &self.law
    }

    fn judge(&mut self, alloc: Global, _sheet: &Sheet) -> Result<Finding, WantOfMemory> {
        self.mine.fetch_add(1, Ordering::SeqCst);
        self.wait_for_other();
        let mut items = Vec::new(alloc);
        items.push((Outcome::Full(0, 0), 1))?;
        Ok(Finding::Coherent(Measure::of(items)))
    }
}

/// Asks for a match, and returns the version, or 0 if no memory is left.
fn ask_once<R: Wait>(
    rt: &R,
    alloc: Global,
    lock: &TurnLock<Board<Anything>>,
    pass: &mut Pass<Board<Anything>>,
    match_name: Name,
    watch: &mut Watch<'_>,
) -> u64
    requires of { IsPassOf lock.now pass.old }
    requires free { holds_pin (known pass.old).own ≡ false }
    ensures of { IsPassOf lock.now pass.new }
    ensures free { holds_pin (known pass.new).own ≡ false }
{
    match ask(rt, alloc, lock, pass, match_name, watch, &Quiet) {
        Ok((version, _)) => version,
        Err(_) => 0,
    }
}

/// Two threads: one asks for a match, the other for two, one behind the other. Returns the versions.
fn ask_beside<R: Threads + Wait + Sync>(
    rt: &R,
    alloc: Global,
    lock: &TurnLock<Board<Anything>>,
    passes: (Pass<Board<Anything>>, Pass<Board<Anything>>),
    match_name: Name,
    watches: (Watch<'_>, Watch<'_>),
) -> (u64, (u64, u64))
    requires of { IsPassOf lock.now passes.0 × IsPassOf lock.now passes.1 }
    requires free { (holds_pin (known passes.0).own ≡ false) × (holds_pin (known passes.1).own ≡ false) }
{
    let (mut one, mut two) = passes;
    let (mut first, mut second) = watches;
    join(
        rt,
        move || -> u64
            requires { IsPassOf lock.now one × (holds_pin (known one).own ≡ false) }
        { ask_once(rt, alloc, lock, &mut one, match_name, &mut first) },
        move || -> (u64, u64)
            requires { IsPassOf lock.now two × (holds_pin (known two).own ≡ false) }
        {
            let earlier = ask_once(rt, alloc, lock, &mut two, match_name, &mut second);
            let later = ask_once(rt, alloc, lock, &mut two, match_name, &mut second);
            (earlier, later)
        },
    )
}

#[test]
fn no_turn_is_held_while_a_sheet_is_judged(rt: HostRuntime) -> Result<(), Fail> {
    let alloc = rt.alloc();
    let board = Board::new(alloc, Anything, &[VoidRule::Void])?;
    let (lock, mut root) = TurnLock::new(alloc, board)?;
    let one = lock.split(&mut root);
    let two = lock.split(&mut root);
    let name = Name::read(b"m1").ok_or("name")?;
    let (by_one, by_two) = (AtomicU64::new(0), AtomicU64::new(0));
    let ran_out = AtomicU64::new(0);
    let watches = (
        Watch {
            law: Anything,
            mine: &by_one,
            other: &by_two,
            wanted: 2,
            ran_out: &ran_out,
        },
        Watch {
            law: Anything,
            mine: &by_two,
            other: &by_one,
            wanted: 1,
            ran_out: &ran_out,
        },
    );
    let (asked, (earlier, later)) = ask_beside(&rt, alloc, &lock, (one, two), name, watches);
    assert_eq!(rt; ran_out.load(Ordering::SeqCst), 0);
    assert!(rt; asked < 6 && earlier < later);
    Ok(())
}
