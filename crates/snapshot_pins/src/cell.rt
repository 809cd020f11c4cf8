//! One cell: its values, what it holds at a version, and which of its values are needed.

ghost use Rattle.std.specs.Prelude.{◌≡◌, ◌≤◌, ◌++◌, ◌∷◌, [], length, take, IfOk, OnOk, OnErr};
ghost use Rattle.snapshot_pins.specs.Values.{offer_at, has_live, is_kept, kept};

use crate::value::CellValue;
use scan_types::{Offer, WantOfMemory};
use std::alloc::Global;

/// The values of one cell, from the oldest on.
#[derive(Drop)]
pub(crate) struct Cell {
    pub(crate) values: Vec<CellValue>,
}

/// A cell of one value.
pub(crate) fn first_value(alloc: Global, value: CellValue) -> Result<Cell, WantOfMemory>
    ensures { IfOk result (λ cell. cell.values.items ≡ value ∷ []) }
{
    let mut values = Vec::new(alloc);
    values.push(value)?;
    Ok(Cell { values })
}

/// Adds a value to the cell.
pub(crate) fn push(cell: &mut Cell, value: CellValue) -> Result<(), WantOfMemory>
    ensures pushed { OnOk result (cell.new.values.items ≡ cell.old.values.items ++ value ∷ []) }
    ensures unchanged { OnErr result (cell.new.values.items ≡ cell.old.values.items) }
{
    cell.values.push(value)?;
    Ok(())
}

/// The offer that the cell holds at a version. Looks at the values from the newest back to the one that it finds.
pub(crate) fn read_cell(values: &[CellValue], version: u64) -> Option<Offer>
    ensures { result ≡ offer_at values.now version }
{
    match values.iter().rev().find(|value| value.version <= version) {
        Some(value) => value.offer,
        None => None,
    }
}

/// Whether a live version is at least the first of these and below the second.
fn is_live_between(live: &[u64], from: u64, below: u64) -> bool
    ensures { result ≡ has_live live.now from below }
{
    live.iter()
        .any(|version| from <= *version && *version < below)
}

/// Whether the newest state or a live version needs the value, which these values follow.
fn is_needed(value: &CellValue, later: &[CellValue], live: &[u64]) -> bool
    ensures { result ≡ is_kept live.now value.now later.now }
{
    match later.first() {
        None => true,
        Some(next) => is_live_between(live, value.version, next.version),
    }
}

/// Moves the values that are needed to the front, in their order, and returns how many they are.
fn gather(values: &mut [CellValue], live: &[u64]) -> usize
    ensures within { result ≤ length values.old }
    ensures values { take result values.new ≡ kept live.now values.old }
{
    let mut count = 0;
    for place in 0..values.len() {
        let value = values[place];
        if is_needed(&value, &values[place + 1..], live) {
            values[count] = value;
            count += 1;
        }
    }
    count
}

/// Drops the values that neither the newest state nor a live version needs. O(values * live).
pub(crate) fn keep_needed(values: &mut Vec<CellValue>, live: &[u64])
    ensures { values.new.items ≡ kept live.now values.old.items }
{
    let count = gather(values.as_mut_slice(), live);
    values.truncate(count);
}
