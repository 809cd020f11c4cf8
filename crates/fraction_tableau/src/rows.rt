ghost use Rattle.std.specs.Prelude.{◌≡◌, ◌≢◌, ◌+◌, ◌<◌, ◌≤◌, ◌++◌, ◌∷◌, ◌↔◌, [], length, replicate, pos, slice_index_or, slice_set, OnOk, OnErr, IfSome, IfNone, IsTrue, vec_len, vec_capacity};
ghost use Rattle.std.specs.List.{All};
ghost use Rattle.row_definitions.specs.Rows.{entry};
ghost use Rattle.row_definitions.specs.Combination.{combined, FitsAt, PassesNowhere, PassesFirst};
ghost use Rattle.fraction_rows.specs.BitLengths.{HasBits};
ghost use Rattle.fraction_rows.specs.Combinable.{IsZeroIn};
ghost use Rattle.row_pool.specs.Pools.{zeros};
ghost use Rattle.fraction_tableau.specs.Combinable.{Combinable};
ghost use Rattle.fraction_tableau.specs.Rows.{IsBoundOf};

use crate::pooled::{combine_pair, fill_row, give_all, put_number, swap_numbers, take_all};
use fraction_rows::{bit_length, content_bound};
use row_pool::{RowId, RowPool};
use std::alloc::Global;
use std::marker::Model;
use want_of_memory::WantOfMemory;

// The rows of a tableau, all out of one pool. Only this module knows where a row's numbers are. With each row it keeps how many
// bits are enough for its numbers, so a pivot mostly sees that a combination passes nowhere and forms no product to test it.
#[derive(Debug, Drop)]
pub(crate) struct Rows {
    pool: RowPool,
    ids: Vec<RowId>,
    bits: Vec<u32>,
}

impl Model for Rows {
    ghost use Rattle.std.specs.Prelude.{List, ℤ};
    ghost use Rattle.fraction_tableau.specs.Rows.{AreRows, all_rows};

    ghost Value = { List (List ℤ) };

    ghost view = { λ r. all_rows r.pool };

    ghost invariant = { λ r. AreRows r.pool r.ids.items r.bits.items };
}

impl Rows {
    // No rows. Takes no memory.
    pub(crate) fn new(alloc: Global) -> Rows
        ensures { result ≡ [] }
    {
        Rows {
            pool: RowPool::new(alloc),
            ids: Vec::new(alloc),
            bits: Vec::new(alloc),
        }
    }

    // Gives all rows back, and keeps the memory for them.
    pub(crate) fn clear(&mut self)
        ensures { self.new ≡ [] }
    {
        give_all(&mut self.pool, &mut self.ids);
        self.bits.clear();
        // No row needs no memory.
        let _ = self.pool.reserve(0, 0);
    }

    // Makes so many rows of zeros of this width in place of those before. Takes no memory if there was room for as many rows and
    // numbers. If no memory is left, there are no rows.
    pub(crate) fn remake(&mut self, count: u32, width: u32) -> Result<(), WantOfMemory>
        ensures ok { OnOk result (self.new ≡ replicate count (zeros width)) }
        ensures err { OnErr result (self.new ≡ []) }
    {
        self.clear();
        self.ids.reserve_exact(count as usize)?;
        self.bits.reserve_exact(count as usize)?;
        self.pool.reserve(count, width)?;
        take_all(&mut self.pool, &mut self.ids, count as usize);
        push_zeros(&mut self.bits, count as usize);
        Ok(())
    }

    pub(crate) fn len(&self) -> usize
        ensures { result ≡ length self.now }
    {
        self.ids.len()
    }

    pub(crate) fn row(&self, row: usize) -> &[i128]
        requires { row < length self.now }
        ensures { result.now ≡ slice_index_or self.now row [] }
    {
        self.pool.row(&self.ids[row])
    }

    // Writes a constraint row as built over zeros: its coefficients, its right side, 1 in its own column, and 0 in the spare place.
    pub(crate) fn fill(&mut self, row: usize, coefs: &[i128], right: i128)
        requires within { row < length self.old }
        requires zeros { slice_index_or self.old row [] ≡ zeros (length coefs.now + 3) }
        ensures { self.new ≡ slice_set self.old row (coefs.now ++ right ∷ pos 1 ∷ pos 0 ∷ []) }
    {
        self.bits[row] = fill_row(&mut self.pool, &self.ids[row], coefs, right);
    }

    pub(crate) fn put(&mut self, row: usize, place: usize, number: i128)
        requires row { row < length self.old }
        requires place { place < length (slice_index_or self.old row []) }
        ensures { self.new ≡ slice_set self.old row (slice_set (slice_index_or self.old row []) place number) }
    {
        self.bits[row] = most(self.bits[row], bit_length(&[number]));
        put_number(&mut self.pool, &self.ids[row], place, number);
    }

    // Exchanges two numbers of a row.
    pub(crate) fn swap(&mut self, row: usize, one: usize, other: usize)
        requires row { row < length self.old }
        requires one { one < length (slice_index_or self.old row []) }
        requires other { other < length (slice_index_or self.old row []) }
        ensures { let r = slice_index_or self.old row [] in self.new ≡ slice_set self.old row (slice_set (slice_set r one (entry r other)) other (entry r one)) }
    {
        swap_numbers(&mut self.pool, &self.ids[row], one, other);
    }

    // The first place in which the combination of a row with the pivot row passes 128 bits. A row that is 0 at the place passes
    // nowhere.
    pub(crate) fn first_passing(&self, target: usize, pivot: usize, place: usize) -> Option<usize>
        requires target { target < length self.now }
        requires pivot { pivot < length self.now }
        requires combinable { Combinable (slice_index_or self.now target []) (slice_index_or self.now pivot []) place }
        ensures first { IfSome result (PassesFirst (slice_index_or self.now target []) (slice_index_or self.now pivot []) place) }
        ensures nowhere { IfNone result (PassesNowhere (slice_index_or self.now target []) (slice_index_or self.now pivot []) place) }
    {
        first_passing_place(
            self.row(target),
            self.bits[target],
            self.row(pivot),
            self.bits[pivot],
            place,
        )
    }

    // Whether the combination of a row with the pivot row fits 128 bits in a column.
    pub(crate) fn fits_at(&self, target: usize, pivot: usize, place: usize, column: usize) -> bool
        requires target { target < length self.now }
        requires pivot { pivot < length self.now }
        requires combinable { Combinable (slice_index_or self.now target []) (slice_index_or self.now pivot []) place }
        requires column { column < length (slice_index_or self.now target []) }
        ensures { IsTrue result ↔ FitsAt (slice_index_or self.now target []) (slice_index_or self.now pivot []) place column }
    {
        fraction_rows::fits_at(self.row(target), self.row(pivot), place, column)
    }

    // Makes a row 0 at the place by the combination with the pivot row. The pivot row is 0 at the place `own`, and the row is 0 at
    // the place `leaving`. A row that is 0 at the place stays as it is.
    pub(crate) fn combine(
        &mut self,
        target: usize,
        pivot: usize,
        place: usize,
        own: usize,
        leaving: usize,
    )
        requires target { target < length self.old }
        requires pivot { pivot < length self.old }
        requires differ { target ≢ pivot }
        requires combinable { Combinable (slice_index_or self.old target []) (slice_index_or self.old pivot []) place }
        requires own { IsZeroIn (slice_index_or self.old pivot []) own }
        requires leaving { IsZeroIn (slice_index_or self.old target []) leaving }
        requires passes_nowhere { PassesNowhere (slice_index_or self.old target []) (slice_index_or self.old pivot []) place }
        ensures { self.new ≡ slice_set self.old target (combined (slice_index_or self.old target []) (slice_index_or self.old pivot []) place) }
    {
        let Some(bound) = bound_of(self.row(target), self.row(pivot), place, own, leaving) else {
            return;
        };
        self.bits[target] = combine_pair(
            &mut self.pool,
            &self.ids[target],
            self.bits[target],
            &self.ids[pivot],
            self.bits[pivot],
            place,
            bound,
        );
    }
}

fn first_passing_place(
    target: &[i128],
    target_bits: u32,
    pivot: &[i128],
    pivot_bits: u32,
    place: usize,
) -> Option<usize>
    requires combinable { Combinable target.now pivot.now place }
    requires target_bits { All (HasBits target_bits) target.now }
    requires pivot_bits { All (HasBits pivot_bits) pivot.now }
    ensures first { IfSome result (PassesFirst target.now pivot.now place) }
    ensures nowhere { IfNone result (PassesNowhere target.now pivot.now place) }
{
    if target[place] == 0 {
        return None;
    }
    let column = fraction_rows::first_passing(target, target_bits, pivot, pivot_bits, place)?;
    Some(column as usize)
}

// A bound for the combination's divisor, or none if the target is 0 at the place, so that it stays as it is.
fn bound_of(
    target: &[i128],
    pivot: &[i128],
    place: usize,
    own: usize,
    leaving: usize,
) -> Option<u128>
    requires combinable { Combinable target.now pivot.now place }
    requires own { IsZeroIn pivot.now own }
    requires leaving { IsZeroIn target.now leaving }
    ensures bound { IfSome result (IsBoundOf target.now pivot.now place) }
    ensures stays { IfNone result (combined target.now pivot.now place ≡ target.now) }
{
    if target[place] == 0 {
        return None;
    }
    Some(content_bound(target, pivot, place, Some(own), leaving))
}

// The greater of two numbers of bits, which is enough where one of them is.
fn most(bits: u32, other: u32) -> u32
    ensures one { bits ≤ result }
    ensures other { other ≤ result }
{
    bits.max(other)
}

fn push_zeros(bits: &mut Vec<u32>, count: usize)
    requires { vec_len bits.old + count ≤ vec_capacity bits.old }
    ensures { bits.new.items ≡ bits.old.items ++ replicate count 0 }
{
    for _ in 0..count {
        let pushed = bits.push(0);
        prove!(pushed.is_ok());
    }
}
