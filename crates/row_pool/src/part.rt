// Parts of a block of numbers.
ghost use Rattle.std.specs.Prelude.{◌≡◌, ◌+◌, ◌≤◌, ◌⊎◌, length};
ghost use Rattle.std.specs.Fn.{FnOnceTakesAtMut};
ghost use Rattle.row_pool.specs.Pools.{zeros};
ghost use Rattle.row_pool.specs.Changes.{TakesRows};
ghost use Rattle.row_pool.specs.Parts.{part_of, with_part, PartChanged, PartChangedBy};

pub(crate) fn part(block: &[i128], start: usize, width: usize) -> &[i128]
    requires { start + width ≤ length block.now }
    ensures { result.now ≡ part_of block.now start width }
{
    &block[start..start + width]
}

pub(crate) fn clear_part(block: &mut [i128], start: usize, width: usize)
    requires { start + width ≤ length block.old }
    ensures { block.new ≡ with_part block.old start (zeros width) }
{
    let (_, rest) = block.split_at_mut(start);
    let (row, _) = rest.split_at_mut(width);
    clear(row);
}

fn clear(row: &mut [i128])
    ensures { row.new ≡ zeros (length row.old) }
{
    for column in 0..row.len() {
        row[column] = 0;
    }
}

// Calls the closure on a part.
pub(crate) fn change_part<R, F: FnOnce(&mut [i128]) -> R>(
    block: &mut [i128],
    start: usize,
    width: usize,
    change: F,
) -> R
    requires within { start + width ≤ length block.old }
    requires callable { FnOnceTakesAtMut F.FnOnce change (part_of block.old start width) }
    ensures { PartChanged F.FnOnce change block.old start width result block.new }
{
    let (_, rest) = block.split_at_mut(start);
    let (row, _) = rest.split_at_mut(width);
    change(row)
}

// Calls the closure on two parts that have no number in common, of which it may write the first.
pub(crate) fn change_part_by<R, F: FnOnce(&mut [i128], &[i128]) -> R>(
    block: &mut [i128],
    target: usize,
    pivot: usize,
    width: usize,
    change: F,
) -> R
    requires target { target + width ≤ length block.old }
    requires pivot { pivot + width ≤ length block.old }
    requires apart { (target + width ≤ pivot) ⊎ (pivot + width ≤ target) }
    requires callable { TakesRows F.FnOnce change (part_of block.old target width) (part_of block.old pivot width) }
    ensures { PartChangedBy F.FnOnce change block.old target pivot width result block.new }
{
    if target < pivot {
        let (front, back) = block.split_at_mut(pivot);
        let (_, rest) = front.split_at_mut(target);
        let (row, _) = rest.split_at_mut(width);
        change(row, part(back, 0, width))
    } else {
        let (front, back) = block.split_at_mut(target);
        let (row, _) = back.split_at_mut(width);
        change(row, part(front, pivot, width))
    }
}
