ghost use Rattle.std.specs.Prelude.{◌≢◌, IfOk};
ghost use Rattle.row_pool.specs.Pools.{IsOut};

use super::*;
use std::alloc::Global;
use std::test::Fail;

fn taken(pool: &mut RowPool) -> Result<RowId, Fail>
    ensures { IfOk result (λ id. IsOut pool.new id.number) }
{
    Ok(pool.take().ok_or("no row is free")?)
}

// Both rows of a pool of two rows of three numbers.
fn two_rows(alloc: Global) -> Result<(RowPool, RowId, RowId), Fail>
    ensures { IfOk result (λ r. IsOut r.0 r.1.number × IsOut r.0 r.2.number × (r.1.number ≢ r.2.number)) }
{
    let mut pool = RowPool::new(alloc);
    pool.reserve(2, 3)?;
    let first = pool.take().ok_or("no row is free")?;
    let second = pool.take().ok_or("no second row is free")?;
    Ok((pool, first, second))
}

// Writes 7 at the head of the first row if the second begins with 0.
fn write_head(pool: &mut RowPool, target: &RowId, pivot: &RowId)
    requires target { IsOut pool.old target.now.number }
    requires pivot { IsOut pool.old pivot.now.number }
    requires differ { target.now.number ≢ pivot.now.number }
    ensures target_stays { IsOut pool.new target.now.number }
    ensures pivot_stays { IsOut pool.new pivot.now.number }
{
    pool.pair_mut(target, pivot, |row, other| {
        if let (Some(head), Some(first)) = (row.first_mut(), other.first()) {
            if *first == 0 {
                *head = 7;
            }
        }
    });
}

#[test]
fn a_row_given_back_is_given_out_again_as_zeros(rt: HostRuntime) -> Result<(), Fail> {
    let (mut pool, first, second) = two_rows(rt.alloc())?;
    write_head(&mut pool, &first, &second);
    assert_eq!(rt; pool.row(&first), [7, 0, 0].as_slice());
    assert_eq!(rt; pool.row(&second), [0, 0, 0].as_slice());
    pool.row_mut(&first, |row| {
        if let Some(last) = row.last_mut() {
            *last = -1;
        }
    });
    match pool.take() {
        Some(_) => return Err(Fail::from("a third row was given out")),
        None => pool.give(first),
    }
    let again = taken(&mut pool)?;
    assert_eq!(rt; pool.row(&again), [0, 0, 0].as_slice());
    Ok(())
}
