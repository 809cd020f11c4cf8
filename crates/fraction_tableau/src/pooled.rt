// The rows of a pool, taken, written and given back.
ghost use Rattle.std.specs.Prelude.{◌≡◌, ◌≢◌, ◌+◌, ◌<◌, ◌≤◌, [], None, Some, length, replicate, slice_set, vec_capacity};
ghost use Rattle.std.specs.List.{All};
ghost use Rattle.row_definitions.specs.Combination.{combined};
ghost use Rattle.fraction_rows.specs.BitLengths.{HasBits};
ghost use Rattle.row_pool.specs.Pools.{IsOut, with_row, free_rows, zeros};
ghost use Rattle.fraction_tableau.specs.Rows.{row_in, exchanged, filled, AreIds, CombinesWithin};

use fraction_rows::{bit_length, combine_within};
use row_pool::{RowId, RowPool};

// Takes every row of a pool whose rows are all free.
pub(crate) fn take_all(pool: &mut RowPool, ids: &mut Vec<RowId>, count: usize)
    requires free { pool.old ≡ free_rows count pool.old.width }
    requires none { ids.old.items ≡ [] }
    requires room { count ≤ vec_capacity ids.old }
    ensures rows { pool.new.rows ≡ replicate count (Some (zeros pool.old.width)) }
    ensures ids { AreIds pool.new ids.new.items }
    ensures count { length ids.new.items ≡ count }
{
    for _ in 0..count {
        let Some(id) = pool.take() else {
            unreachable!()
        };
        let pushed = ids.push(id);
        prove!(pushed.is_ok());
    }
}

// Gives every row back.
pub(crate) fn give_all(pool: &mut RowPool, ids: &mut Vec<RowId>)
    requires ids { AreIds pool.old ids.old.items }
    requires count { length ids.old.items ≡ length pool.old.rows }
    ensures free { All (λ row. row ≡ None) pool.new.rows }
    ensures none { ids.new.items ≡ [] }
{
    while let Some(id) = ids.pop() {
        pool.give(id);
    }
}

// Writes a constraint row as built over zeros. Returns how many bits are enough for its numbers.
pub(crate) fn fill_row(pool: &mut RowPool, id: &RowId, coefs: &[i128], right: i128) -> u32
    requires out { IsOut pool.old id.now.number }
    requires zeros { row_in pool.old id.now.number ≡ zeros (length coefs.now + 3) }
    ensures value { pool.new ≡ with_row pool.old id.now.number (Some (filled coefs.now right)) }
    ensures bits { All (HasBits result) (filled coefs.now right) }
{
    pool.row_mut(
        id,
        |row|
            requires { row.old ≡ zeros (length coefs.now + 3) }
            ensures value { row.new ≡ filled coefs.entry.now right }
            ensures bits { All (HasBits result) row.new }
        { fill_zeros(row, coefs, right) },
    )
}

fn fill_zeros(row: &mut [i128], coefs: &[i128], right: i128) -> u32
    requires { row.old ≡ zeros (length coefs.now + 3) }
    ensures value { row.new ≡ filled coefs.now right }
    ensures bits { All (HasBits result) row.new }
{
    let count = coefs.len();
    row[..count].copy_from_slice(coefs);
    row[count] = right;
    row[count + 1] = 1;
    bit_length(row)
}

pub(crate) fn put_number(pool: &mut RowPool, id: &RowId, place: usize, number: i128)
    requires out { IsOut pool.old id.now.number }
    requires place { place < length (row_in pool.old id.now.number) }
    ensures { pool.new ≡ with_row pool.old id.now.number (Some (slice_set (row_in pool.old id.now.number) place number)) }
{
    pool.row_mut(
        id,
        |row|
            requires { place < length row.old }
            ensures { row.new ≡ slice_set row.old place number }
        {
            row[place] = number;
        },
    )
}

pub(crate) fn swap_numbers(pool: &mut RowPool, id: &RowId, one: usize, other: usize)
    requires out { IsOut pool.old id.now.number }
    requires one { one < length (row_in pool.old id.now.number) }
    requires other { other < length (row_in pool.old id.now.number) }
    ensures { pool.new ≡ with_row pool.old id.now.number (Some (exchanged (row_in pool.old id.now.number) one other)) }
{
    pool.row_mut(
        id,
        |row|
            requires one { one < length row.old }
            requires other { other < length row.old }
            ensures { row.new ≡ exchanged row.old one other }
        {
            let first = row[one];
            row[one] = row[other];
            row[other] = first;
        },
    )
}

// Combines a row with the pivot row. Returns how many bits are enough for its numbers then.
pub(crate) fn combine_pair(
    pool: &mut RowPool,
    target: &RowId,
    target_bits: u32,
    pivot: &RowId,
    pivot_bits: u32,
    place: usize,
    bound: u128,
) -> u32
    requires target { IsOut pool.old target.now.number }
    requires pivot { IsOut pool.old pivot.now.number }
    requires differ { target.now.number ≢ pivot.now.number }
    requires combines { CombinesWithin (row_in pool.old target.now.number) (row_in pool.old pivot.now.number) target_bits pivot_bits place bound }
    ensures value { pool.new ≡ with_row pool.old target.now.number (Some (combined (row_in pool.old target.now.number) (row_in pool.old pivot.now.number) place)) }
    ensures bits { All (HasBits result) (combined (row_in pool.old target.now.number) (row_in pool.old pivot.now.number) place) }
{
    pool.pair_mut(
        target,
        pivot,
        |row, other|
            requires { CombinesWithin row.old other.now target_bits pivot_bits place bound }
            ensures value { row.new ≡ combined row.old other.now place }
            ensures bits { All (HasBits result) row.new }
        { combine_within(row, target_bits, other, pivot_bits, place, bound) },
    )
}
