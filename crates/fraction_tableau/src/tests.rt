ghost use Rattle.std.specs.Prelude.{◌≡◌, ◌+◌, ◌<◌, length, IfOk};
ghost use Rattle.pivot_definitions.specs.Tableaus.{column_count, HasSameShape};

use super::*;
use crate::condensed::Condensed;
use crate::rows::Rows;
use std::alloc::Global;
use std::process::Abort;
use std::test::Fail;

const LARGEST: i128 = i128::MAX;

// 2^126, of which twice is past an entry.
const LARGE: i128 = 0x4000_0000_0000_0000_0000_0000_0000_0000;

fn program(
    alloc: Global,
    columns: u32,
    rows: u32,
    coefs: &[i128],
    right: &[i128],
) -> Result<Program, Fail>
    ensures { IfOk result (λ program. (program.columns ≡ columns) × (program.rows ≡ rows)) }
{
    if !Program::fits(columns, rows, coefs, right) {
        return Err(Fail::from("these make no program"));
    }
    Ok(Program::of(columns, rows, coefs.to_vec(alloc)?, right.to_vec(alloc)?))
}

fn pivoted(rt: &impl Abort, tableau: &mut Tableau, row: u32, column: u32) -> Result<(), Passed2>
    requires row { row < length tableau.old.basis }
    requires column { column < column_count tableau.old }
    ensures { HasSameShape tableau.old tableau.new }
{
    assert!(rt; tableau.entry(row, column) > 0);
    assert!(rt; !tableau.is_basic(column));
    tableau.pivot(row, column)
}

fn entries(alloc: Global, tableau: &Tableau, row: u32) -> Result<Vec<i128>, Fail>
    requires some { 0 < column_count tableau.now }
    requires row { row < length tableau.now.basis + 1 }
{
    let mut entries = Vec::new(alloc);
    for column in 0..tableau.columns() + tableau.rows() + 1 {
        entries.push(tableau.entry(row, column))?;
    }
    Ok(entries)
}

// Three results, three offers: each loses twice what it gains elsewhere, so no stakes gain at every result.
fn three_way(alloc: Global) -> Result<Program, Fail>
    ensures { IfOk result (λ program. (program.columns ≡ 4) × (program.rows ≡ 5)) }
{
    program(
        alloc,
        4,
        5,
        &[
            1, 1, -2, 1, 1, 1, 1, -2, 1, -2, 1, 1, 0, 0, 0, 0, 1, 0, 0, 0,
        ],
        &[0, 0, 0, 0, 1],
    )
}

#[test]
fn builds_the_slack_columns_basic(rt: HostRuntime) -> Result<(), Fail> {
    let program = three_way(rt.alloc())?;
    assert!(rt; program.is_capped());
    let tableau = Tableau::build(rt.alloc(), &program)?;
    assert_eq!(rt;
        entries(rt.alloc(), &tableau, 2)?.as_slice(),
        [1, -2, 1, 1, 0, 0, 1, 0, 0, 0].as_slice()
    );
    assert_eq!(rt;
        entries(rt.alloc(), &tableau, 4)?.as_slice(),
        [1, 0, 0, 0, 0, 0, 0, 0, 1, 1].as_slice()
    );
    assert_eq!(rt;
        entries(rt.alloc(), &tableau, 5)?.as_slice(),
        [1, 0, 0, 0, 0, 0, 0, 0, 0, 0].as_slice()
    );
    Ok(())
}

#[test]
fn pivots_to_a_level_of_zero(rt: HostRuntime) -> Result<(), Fail> {
    let mut tableau = Tableau::build(rt.alloc(), &three_way(rt.alloc())?)?;
    assert_eq!(rt; pivoted(&rt, &mut tableau, 0, 0), Ok(()));
    assert_eq!(rt; pivoted(&rt, &mut tableau, 1, 2), Ok(()));
    assert_eq!(rt; pivoted(&rt, &mut tableau, 2, 3), Ok(()));
    assert_eq!(rt;
        entries(rt.alloc(), &tableau, 0)?.as_slice(),
        [3, 0, 0, 0, 1, 1, 1, 0, 0, 0].as_slice()
    );
    assert_eq!(rt;
        entries(rt.alloc(), &tableau, 5)?.as_slice(),
        [0, 0, 0, 0, -1, -1, -1, 0, 0, 0].as_slice()
    );
    assert_eq!(rt; tableau.basic(2), 3);
    assert_eq!(rt; tableau.multiplier(1), 1);
    assert_eq!(rt; tableau.value(0), (0, 3));
    assert_eq!(rt; tableau.value(1), (0, 1));
    Ok(())
}

#[test]
fn passes_in_column_0_and_stays(rt: HostRuntime) -> Result<(), Fail> {
    // 2^126 * -3 is past -(2^127 - 1).
    let program = program(rt.alloc(), 1, 3, &[LARGE, -3, 1], &[0, 0, 1])?;
    let mut tableau = Tableau::build(rt.alloc(), &program)?;
    assert_eq!(rt;
        pivoted(&rt, &mut tableau, 0, 0),
        Err(Passed2 { row: 1, column: 0 })
    );
    assert_eq!(rt;
        entries(rt.alloc(), &tableau, 0)?.as_slice(),
        [LARGE, 1, 0, 0, 0].as_slice()
    );
    assert_eq!(rt;
        entries(rt.alloc(), &tableau, 2)?.as_slice(),
        [1, 0, 0, 1, 1].as_slice()
    );
    Ok(())
}

#[test]
fn passes_in_the_right_side(rt: HostRuntime) -> Result<(), Fail> {
    // The sum of 2^127 - 1 and 1 is past 2^127 - 1.
    let program = program(rt.alloc(), 1, 2, &[-1, 1], &[LARGEST, 1])?;
    let mut tableau = Tableau::build(rt.alloc(), &program)?;
    assert_eq!(rt;
        pivoted(&rt, &mut tableau, 1, 0),
        Err(Passed2 { row: 0, column: 3 })
    );
    Ok(())
}

// A tableau that no program builds: one constraint row, and an objective row whose right side is large.
fn large_objective(alloc: Global) -> Result<Tableau, Fail>
    ensures { IfOk result (λ tableau. (tableau.columns ≡ 1) × (length tableau.basis ≡ 1)) }
{
    let mut rows = Rows::new(alloc);
    rows.remake(2, 4)?;
    rows.fill(0, &[3], 0);
    rows.put(1, 0, 1);
    rows.put(1, 1, LARGE);
    let mut basis = Vec::new(alloc);
    basis.push(1)?;
    let mut heads = Vec::new(alloc);
    heads.push(0)?;
    heads.push(1)?;
    Ok(Tableau {
        condensed: Condensed {
            columns: 1,
            rows,
            basis,
            heads,
        },
    })
}

#[test]
fn passes_in_the_objective_row(rt: HostRuntime) -> Result<(), Fail> {
    // 3 * 2^126 is past 2^127 - 1.
    let mut tableau = large_objective(rt.alloc())?;
    assert_eq!(rt;
        pivoted(&rt, &mut tableau, 0, 0),
        Err(Passed2 { row: 1, column: 2 })
    );
    assert_eq!(rt;
        entries(rt.alloc(), &tableau, 1)?.as_slice(),
        [1, 0, LARGE].as_slice()
    );
    assert_eq!(rt; tableau.rows(), 1);
    assert_eq!(rt; tableau.basic(0), 1);
    Ok(())
}

#[test]
fn tells_what_makes_no_program(rt: HostRuntime) {
    assert!(rt; !Program::fits(0, 1, &[], &[1]));
    assert!(rt; !Program::fits(1, 2, &[1], &[1, 1]));
    assert!(rt; !Program::fits(1, 1, &[1], &[-1]));
    assert!(rt; !Program::fits(1, 1, &[i128::MIN], &[1]));
    assert!(rt; Program::fits(1, 1, &[1], &[1]));
}
