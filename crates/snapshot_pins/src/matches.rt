//! The cells of all matches.

ghost use Rattle.std.specs.Prelude.{◌≡◌, ℕ, List, ◌==◌, ◌&&◌, ◌++◌, ◌∷◌, [], OnOk, OnErr, IfSome, if◌then◌else◌};
ghost use Rattle.std.specs.BTreeMap.{IsOrdered};
ghost use Rattle.std.specs.Str.{bytes_eq};
ghost use Rattle.indexmap.specs.IndexMap.{get as entry_of};
ghost use Rattle.snapshot_pins.specs.Values.{kept};
ghost use Rattle.snapshot_pins.specs.Copies.{IsCopied};
ghost use Rattle.snapshot_pins.specs.Kept.{slot_cmp, cell_on, offers_on};

use crate::cell::Cell;
use crate::match_cells::{Slot, copy_at, keep_cell, keep_cells, push_value};
use crate::value::CellValue;
use indexmap::IndexMap;
use scan_types::{Name, Offer, WantOfMemory};
use std::alloc::Global;
use std::collections::BTreeMap;

/// Adds a value to the cell in a slot on a match.
pub(crate) fn push_on(
    matches: &mut IndexMap<Name, BTreeMap<Slot, Cell>>,
    alloc: Global,
    match_name: Name,
    slot: Slot,
    value: CellValue,
) -> Result<(), WantOfMemory>
    ensures pushed { OnOk result ((m : List ℕ) (feed number : ℕ) → cell_on matches.new m feed number ≡ (if bytes_eq match_name m && (slot.feed == feed && slot.number == number) then cell_on matches.old m feed number ++ value ∷ [] else cell_on matches.old m feed number)) }
    ensures unchanged { OnErr result ((m : List ℕ) (feed number : ℕ) → cell_on matches.new m feed number ≡ cell_on matches.old m feed number) }
{
    let cells = matches.entry(match_name)?.or_insert(BTreeMap::new(alloc));
    push_value(cells, alloc, slot, value)
}

/// Drops the values of the cell in a slot on a match that are not needed.
pub(crate) fn keep_cell_on(
    matches: &mut IndexMap<Name, BTreeMap<Slot, Cell>>,
    match_name: &Name,
    slot: Slot,
    live: &[u64],
)
    ensures { (m : List ℕ) (feed number : ℕ) → cell_on matches.new m feed number ≡ (if bytes_eq match_name.now m && (slot.feed == feed && slot.number == number) then kept live.now (cell_on matches.old m feed number) else cell_on matches.old m feed number) }
{
    if let Some(cells) = matches.get_mut(match_name) {
        keep_cell(cells, slot, live);
    }
}

/// Drops the values of all cells on a match that are not needed.
pub(crate) fn keep_on(
    matches: &mut IndexMap<Name, BTreeMap<Slot, Cell>>,
    match_name: &Name,
    live: &[u64],
)
    ensures { (m : List ℕ) (feed number : ℕ) → cell_on matches.new m feed number ≡ (if bytes_eq match_name.now m then kept live.now (cell_on matches.old m feed number) else cell_on matches.old m feed number) }
{
    if let Some(cells) = matches.get_mut(match_name) {
        keep_cells(cells, live);
    }
}

/// Drops the values of all cells that are not needed.
pub(crate) fn keep_all(matches: &mut IndexMap<Name, BTreeMap<Slot, Cell>>, live: &[u64])
    ensures { (m : List ℕ) (feed number : ℕ) → cell_on matches.new m feed number ≡ kept live.now (cell_on matches.old m feed number) }
{
    matches.retain(|_, cells| {
        keep_cells(cells, live);
        true
    });
}

/// Copies the offers that the cells on a match hold at a version, from a place on, and returns how many.
pub(crate) fn copy_on(
    matches: &IndexMap<Name, BTreeMap<Slot, Cell>>,
    match_name: &Name,
    version: u64,
    from: usize,
    out: &mut [Offer],
) -> usize
    ensures copied { IsCopied (offers_on matches.now match_name.now version) from out.old out.new result }
    ensures ordered { IfSome (entry_of bytes_eq matches.now match_name.now) (λ cells. IsOrdered slot_cmp cells) }
{
    match matches.get(match_name) {
        None => 0,
        Some(cells) => copy_at(cells, version, from, out),
    }
}
