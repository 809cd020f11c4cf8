//! The cells of one match.

ghost use Rattle.std.specs.Prelude.{◌≡◌, ℕ, ◌==◌, ◌&&◌, ◌++◌, ◌∷◌, [], OnOk, OnErr, if◌then◌else◌};
ghost use Rattle.std.specs.BTreeMap.{IsOrdered};
ghost use Rattle.snapshot_pins.specs.Values.{kept};
ghost use Rattle.snapshot_pins.specs.Copies.{IsCopied};
ghost use Rattle.snapshot_pins.specs.Kept.{slot_cmp, cell_in, offers_in};

use crate::cell::{Cell, first_value, keep_needed, push, read_cell};
use crate::value::CellValue;
use scan_types::{Offer, WantOfMemory};
use std::alloc::Global;
use std::collections::BTreeMap;

/// The place of a cell on its match: by feed, and within a feed by the number of the selection.
#[derive(Clone, Copy, Debug, PartialEq, Eq, PartialOrd, Ord)]
pub(crate) struct Slot {
    /// The number of the feed.
    pub(crate) feed: u8,
    /// The number of the selection.
    pub(crate) number: u8,
}

/// Adds a value to the cell in a slot.
pub(crate) fn push_value(
    cells: &mut BTreeMap<Slot, Cell>,
    alloc: Global,
    slot: Slot,
    value: CellValue,
) -> Result<(), WantOfMemory>
    ensures pushed { OnOk result ((feed number : ℕ) → cell_in cells.new feed number ≡ (if slot.feed == feed && slot.number == number then cell_in cells.old feed number ++ value ∷ [] else cell_in cells.old feed number)) }
    ensures unchanged { OnErr result ((feed number : ℕ) → cell_in cells.new feed number ≡ cell_in cells.old feed number) }
{
    match cells.get_mut(&slot) {
        Some(cell) => push(cell, value),
        None => {
            let cell = first_value(alloc, value)?;
            cells.insert(slot, cell)?;
            Ok(())
        }
    }
}

/// Drops the values of the cell in a slot that are not needed.
pub(crate) fn keep_cell(cells: &mut BTreeMap<Slot, Cell>, slot: Slot, live: &[u64])
    ensures { (feed number : ℕ) → cell_in cells.new feed number ≡ (if slot.feed == feed && slot.number == number then kept live.now (cell_in cells.old feed number) else cell_in cells.old feed number) }
{
    if let Some(cell) = cells.get_mut(&slot) {
        keep_needed(&mut cell.values, live);
    }
}

/// Drops the values of all cells that are not needed.
pub(crate) fn keep_cells(cells: &mut BTreeMap<Slot, Cell>, live: &[u64])
    ensures { (feed number : ℕ) → cell_in cells.new feed number ≡ kept live.now (cell_in cells.old feed number) }
{
    cells.retain(|_, cell| {
        keep_needed(&mut cell.values, live);
        true
    });
}

/// Copies the offers that the cells hold at a version, from a place on, and returns how many: as many as there are and as fit.
pub(crate) fn copy_at(
    cells: &BTreeMap<Slot, Cell>,
    version: u64,
    from: usize,
    out: &mut [Offer],
) -> usize
    ensures copied { IsCopied (offers_in cells.now version) from out.old out.new result }
    ensures ordered { IsOrdered slot_cmp cells.now }
{
    let mut count = 0;
    for offer in cells
        .values()
        .filter_map(|cell| read_cell(&cell.values, version))
        .skip(from)
    {
        if count == out.len() {
            return count;
        }
        out[count] = offer;
        count += 1;
    }
    count
}
