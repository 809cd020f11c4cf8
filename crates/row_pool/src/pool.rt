ghost use Rattle.std.specs.Prelude.{◌≡◌, ◌≢◌, ◌+◌, ◌≤◌, ◌++◌, length, None, Some, replicate, false, slice_get, OnOk, OnErr, IfSome, IfNone, IsSome, IsTrue, ℕ, ◌<◌, vec_len, vec_capacity};
ghost use Rattle.std.specs.List.{All};
ghost use Rattle.row_pool.specs.Pools.{row_at, IsOut, IsFree, with_row, zeros, free_rows, empty_pool, AreMarked};
ghost use Rattle.row_pool.specs.Changes.{CanChange, Changed, CanChangeBy, ChangedBy};

use crate::part::{change_part, change_part_by, clear_part, part};
use std::alloc::Global;
use std::marker::Model;
use want_of_memory::WantOfMemory;

/// A row that a pool gave out. There is one a row, so it cannot be copied; it means nothing to another pool.
#[derive(Debug, Drop)]
pub struct RowId {
    number: u32,
}

/// Rows of one width in one block of numbers. Each row is free or out.
#[derive(Debug, Drop)]
pub struct RowPool {
    width: usize,
    out: Vec<bool>,
    // Every row before it is out.
    next: usize,
    block: Vec<i128>,
}

impl Model for RowPool {
    ghost use Rattle.std.specs.Prelude.{◌≡◌, ◌*◌, ◌<◌, ◌^◌, length};
    ghost use Rattle.row_pool.specs.Pools.{Pool, rows_of, AreMarked};

    ghost Value = { Pool };

    ghost view = { λ p. record { width = p.width; rows = rows_of p.width p.out.items p.block.items } };

    ghost invariant = { λ p. (length p.block.items ≡ length p.out.items * p.width) × (length p.out.items < 2 ^ 32) × AreMarked p.out.items p.next };
}

impl RowPool {
    /// A pool of no rows. Takes no memory.
    pub fn new(alloc: Global) -> RowPool
        ensures { result ≡ empty_pool }
    {
        RowPool {
            width: 0,
            out: Vec::new(alloc),
            next: 0,
            block: Vec::new(alloc),
        }
    }

    /// Makes exactly `rows` free rows of `width` numbers. No row is out. It is the one call that takes memory, and takes none
    /// if the pool had room for as many rows and numbers before. If no memory is left, the pool has no rows. Costs a write a
    /// number.
    pub fn reserve(&mut self, rows: u32, width: u32) -> Result<(), WantOfMemory>
        requires { All (λ row. row ≡ None) self.old.rows }
        ensures ok { OnOk result (self.new ≡ free_rows rows width) }
        ensures err { OnErr result (self.new ≡ empty_pool) }
    {
        let count = rows as usize * width as usize;
        self.width = 0;
        self.next = 0;
        self.out.clear();
        self.block.clear();
        self.out.reserve_exact(rows as usize)?;
        self.block.reserve_exact(count)?;
        push_free(&mut self.out, rows as usize);
        push_zeros(&mut self.block, count);
        self.width = width as usize;
        Ok(())
    }

    /// Gives out the first free row, all 0, or none if every row is out. Costs a look at each row since the first that was
    /// taken or given back last, and a write a number of the row.
    pub fn take(&mut self) -> Option<RowId>
        ensures free { IfSome result (λ id. IsFree self.old id.number) }
        ensures first { IfSome result (λ id. (row : ℕ) → row < id.number → IsOut self.old row) }
        ensures taken { IfSome result (λ id. self.new ≡ with_row self.old id.number (Some (zeros self.old.width))) }
        ensures none { IfNone result (All IsSome self.old.rows) }
        ensures unchanged { IfNone result (self.new ≡ self.old) }
    {
        let number = first_free(&self.out, self.next)?;
        let start = number * self.width;
        clear_part(self.block.as_mut_slice(), start, self.width);
        self.out[number] = true;
        self.next = number + 1;
        Some(RowId {
            number: number as u32,
        })
    }

    /// The numbers of a row that is out.
    pub fn row(&self, id: &RowId) -> &[i128]
        requires { IsOut self.now id.now.number }
        ensures { row_at self.now id.now.number ≡ Some result.now }
    {
        part(&self.block, id.number as usize * self.width, self.width)
    }

    /// Lets the closure write the numbers of a row that is out. Every other row stays.
    pub fn row_mut<R, F: FnOnce(&mut [i128]) -> R>(&mut self, id: &RowId, change: F) -> R
        requires out { IsOut self.old id.now.number }
        requires callable { CanChange F.FnOnce change self.old id.now.number }
        ensures { Changed F.FnOnce change self.old id.now.number result self.new }
    {
        let start = id.number as usize * self.width;
        change_part(self.block.as_mut_slice(), start, self.width, change)
    }

    /// Lets the closure write the numbers of one row by those of another, both of which are out. Every row but the first stays.
    pub fn pair_mut<R, F: FnOnce(&mut [i128], &[i128]) -> R>(
        &mut self,
        target: &RowId,
        pivot: &RowId,
        change: F,
    ) -> R
        requires target { IsOut self.old target.now.number }
        requires pivot { IsOut self.old pivot.now.number }
        requires differ { target.now.number ≢ pivot.now.number }
        requires callable { CanChangeBy F.FnOnce change self.old target.now.number pivot.now.number }
        ensures { ChangedBy F.FnOnce change self.old target.now.number pivot.now.number result self.new }
    {
        let first = target.number as usize * self.width;
        let second = pivot.number as usize * self.width;
        change_part_by(self.block.as_mut_slice(), first, second, self.width, change)
    }

    /// Takes back a row that is out. It is free then.
    pub fn give(&mut self, id: RowId)
        requires { IsOut self.old id.number }
        ensures { self.new ≡ with_row self.old id.number None }
    {
        self.out[id.number as usize] = false;
        self.next = self.next.min(id.number as usize);
    }
}

// The first row that is free. Every row before `from` is out.
fn first_free(out: &[bool], from: usize) -> Option<usize>
    requires { AreMarked out.now from }
    ensures some { IfSome result (λ row. slice_get out.now row ≡ Some false) }
    ensures first { IfSome result (AreMarked out.now) }
    ensures none { IfNone result (All IsTrue out.now) }
{
    for row in from..out.len() {
        if !out[row] {
            return Some(row);
        }
    }
    None
}

fn push_free(out: &mut Vec<bool>, rows: usize)
    requires { vec_len out.old + rows ≤ vec_capacity out.old }
    ensures { out.new.items ≡ out.old.items ++ replicate rows false }
{
    for _ in 0..rows {
        let pushed = out.push(false);
        prove!(pushed.is_ok());
    }
}

fn push_zeros(block: &mut Vec<i128>, count: usize)
    requires { vec_len block.old + count ≤ vec_capacity block.old }
    ensures { block.new.items ≡ block.old.items ++ zeros count }
{
    for _ in 0..count {
        let pushed = block.push(0);
        prove!(pushed.is_ok());
    }
}
