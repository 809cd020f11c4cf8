ghost use Rattle.std.specs.Prelude.{◌≡◌, IfOk};
ghost use Rattle.pivot_definitions.specs.Programs.{IsProgram, IsCapped};
ghost use Rattle.pivot_rule.specs.Ends.{IsCappedStart};

use super::*;
use fraction_tableau::{Program, Tableau};
use std::alloc::Global;
use std::test::Fail;

const LARGEST: i128 = i128::MAX;

// 2^126, of which twice is past an entry.
const LARGE: i128 = 0x4000_0000_0000_0000_0000_0000_0000_0000;

fn capped(
    alloc: Global,
    columns: u32,
    rows: u32,
    coefs: &[i128],
    right: &[i128],
) -> Result<Program, Fail>
    ensures program { IfOk result IsProgram }
    ensures capped { IfOk result IsCapped }
    ensures columns { IfOk result (λ program. program.columns ≡ columns) }
{
    if !Program::fits(columns, rows, coefs, right) {
        return Err(Fail::from("these make no program"));
    }
    let program = Program::of(columns, rows, coefs.to_vec(alloc)?, right.to_vec(alloc)?);
    if !program.is_capped() {
        return Err(Fail::from("the last row is no cap"));
    }
    Ok(program)
}

fn started(
    alloc: Global,
    columns: u32,
    rows: u32,
    coefs: &[i128],
    right: &[i128],
) -> Result<Tableau, Fail>
    ensures capped { IfOk result IsCappedStart }
    ensures columns { IfOk result (λ tableau. tableau.columns ≡ columns) }
{
    let program = capped(alloc, columns, rows, coefs, right)?;
    Ok(Tableau::build(alloc, &program)?)
}

// Runs a program in a tableau that may have been used before.
fn ran(tableau: &mut Tableau, program: &Program, budget: u32) -> Result<RunEnd, Fail>
    requires program { IsProgram program.now }
    requires capped { IsCapped program.now }
    ensures { IfOk result (λ _. tableau.new.columns ≡ program.now.columns) }
{
    tableau.rebuild(program)?;
    Ok(run(tableau, budget))
}

fn has_basis(tableau: &Tableau, basis: &[u32]) -> bool {
    tableau.rows() as usize == basis.len()
        && (0..tableau.rows()).all(|row| tableau.basic(row) == basis[row as usize])
}

fn has_multipliers(tableau: &Tableau, multipliers: &[i128]) -> bool {
    tableau.rows() as usize == multipliers.len()
        && (0..tableau.rows()).all(|row| tableau.multiplier(row) == multipliers[row as usize])
}

// Three results and three offers: each gains 1 at two of them and loses 2 at the third, so no stakes gain at all three.
fn three_way_program(alloc: Global) -> Result<Program, Fail>
    ensures program { IfOk result IsProgram }
    ensures capped { IfOk result IsCapped }
    ensures columns { IfOk result (λ program. program.columns ≡ 4) }
{
    capped(
        alloc,
        4,
        5,
        &[
            1, 1, -2, 1, 1, 1, 1, -2, 1, -2, 1, 1, 0, 0, 0, 0, 1, 0, 0, 0,
        ],
        &[0, 0, 0, 0, 1],
    )
}

fn three_way(alloc: Global) -> Result<Tableau, Fail>
    ensures capped { IfOk result IsCappedStart }
    ensures columns { IfOk result (λ tableau. tableau.columns ≡ 4) }
{
    let program = three_way_program(alloc)?;
    Ok(Tableau::build(alloc, &program)?)
}

// A tableau in which a program of fewer columns and rows was run to its end.
fn used(alloc: Global) -> Result<Tableau, Fail> {
    let smaller = capped(alloc, 2, 3, &[3, -1, 0, 1, 1, 0], &[0, 2, 1])?;
    let mut tableau = Tableau::empty(alloc);
    if ran(&mut tableau, &smaller, 10)? != RunEnd::Best(2) {
        return Err(Fail::from("the smaller program has another end"));
    }
    Ok(tableau)
}

#[test]
fn ends_at_a_level_of_zero_in_a_used_tableau_too(rt: HostRuntime) -> Result<(), Fail> {
    let program = three_way_program(rt.alloc())?;
    let mut tableau = used(rt.alloc())?;
    assert_eq!(rt; ran(&mut tableau, &program, 2)?, RunEnd::OutOfPivots(2));
    assert_eq!(rt; ran(&mut tableau, &program, 4096)?, RunEnd::Best(3));
    assert!(rt; has_basis(&tableau, &[0, 2, 3, 7, 8]));
    assert!(rt; has_multipliers(&tableau, &[1, 1, 1, 0, 0]));
    assert_eq!(rt; tableau.value(0), (0, 3));
    Ok(())
}

#[test]
fn spends_its_budget(rt: HostRuntime) -> Result<(), Fail> {
    for (budget, end) in [
        (0, RunEnd::OutOfPivots(0)),
        (1, RunEnd::OutOfPivots(1)),
        (2, RunEnd::OutOfPivots(2)),
        (3, RunEnd::Best(3)),
        // As many pivots as there are ways to choose five of nine columns.
        (126, RunEnd::Best(3)),
    ] {
        assert_eq!(rt; run(&mut three_way(rt.alloc())?, budget), end);
    }
    Ok(())
}

// The match of seven selections at three books: the pivot rows are 0, 3, 3, 1, 2, 3, 1, 1, 4, 4.
#[test]
fn weighs_the_results_of_a_whole_match(rt: HostRuntime) -> Result<(), Fail> {
    let mut tableau = started(
        rt.alloc(),
        10,
        9,
        &[
            1, -7, -13, 10, 20, -3, 4, 5, -1, 10, // 0-0
            1, -7, 5, 20, 20, -3, 4, -12, -2, 10, // 0-1
            1, -7, 5, -19, 20, -3, -5, 5, 2, 10, // 1-0
            1, 10, 5, 20, -23, 4, 4, -12, -2, -13, // 0-3
            1, 10, 5, -19, -23, 4, -5, 5, 2, -13, // 2-1
            1, 10, -13, 10, -23, 4, 4, 5, -1, -13, // 2-2
            0, 0, 0, 0, 0, 0, 0, 0, 0, 0, // abandoned at 0-0
            0, 0, 0, 0, -23, 4, 0, 0, 0, 0, // abandoned at 0-3
            1, 0, 0, 0, 0, 0, 0, 0, 0, 0,
        ],
        &[0, 0, 0, 0, 0, 0, 0, 0, 1],
    )?;
    assert_eq!(rt; run(&mut tableau, 4096), RunEnd::Best(10));
    assert!(rt; has_basis(&tableau, &[0, 11, 7, 8, 5, 15, 16, 17, 18]));
    assert!(rt; has_multipliers(&tableau, &[98, 0, 106, 105, 48, 0, 0, 0, 0]));
    // Worked out apart from the program, in whole numbers without bound. By these multipliers the rows make
    // 98 + 106 + 105 + 48 = 357 times column 0.
    assert_eq!(rt; tableau.value(0), (0, 357));
    Ok(())
}

#[test]
fn ends_at_the_level_of_the_program(rt: HostRuntime) -> Result<(), Fail> {
    // Column 0 is at most 0, by a row without room. There are three ways to choose two of three columns.
    let mut no_room = started(rt.alloc(), 1, 2, &[1, 1], &[0, 1])?;
    assert_eq!(rt; run(&mut no_room, 3), RunEnd::Best(1));
    assert_eq!(rt; no_room.value(0), (0, 1));

    // Three times column 0 is at most column 1, which is at most 2.
    let mut two_thirds = started(rt.alloc(), 2, 3, &[3, -1, 0, 1, 1, 0], &[0, 2, 1])?;
    assert_eq!(rt; run(&mut two_thirds, 10), RunEnd::Best(2));
    assert_eq!(rt; two_thirds.value(0), (2, 3));

    // Column 0 is at most column 1 and at most column 2, whose sum is at most 1: equal ratios.
    let mut half = started(
        rt.alloc(),
        3,
        4,
        &[1, -1, 0, 1, 0, -1, 0, 1, 1, 1, 0, 0],
        &[0, 0, 1, 1],
    )?;
    assert_eq!(rt; run(&mut half, 10), RunEnd::Best(3));
    assert!(rt; has_basis(&half, &[0, 1, 2, 6]));
    assert_eq!(rt; half.value(0), (1, 2));

    // Column 0 is at most column 1, which is at most 2: the cap ends the run.
    let mut capped = started(rt.alloc(), 2, 4, &[1, -1, 1, -1, 0, 1, 1, 0], &[0, 0, 2, 1])?;
    assert_eq!(rt; run(&mut capped, 10), RunEnd::Best(2));
    assert!(rt; has_multipliers(&capped, &[0, 0, 0, 1]));
    assert_eq!(rt; capped.value(0), (1, 1));
    Ok(())
}

#[test]
fn says_where_a_number_would_pass_128_bits(rt: HostRuntime) -> Result<(), Fail> {
    let mut column_0 = started(rt.alloc(), 1, 3, &[LARGE, -3, 1], &[0, 0, 1])?;
    assert_eq!(rt;
        run(&mut column_0, 5),
        RunEnd::Wide {
            pivots: 0,
            row: 1,
            column: 0
        }
    );

    let mut right_side = started(rt.alloc(), 1, 2, &[-1, 1], &[LARGEST, 1])?;
    assert_eq!(rt;
        run(&mut right_side, 5),
        RunEnd::Wide {
            pivots: 0,
            row: 0,
            column: 3
        }
    );

    let mut later = started(rt.alloc(), 2, 3, &[-1, 1, LARGE, -1, 1, 0], &[1, 0, 1])?;
    assert_eq!(rt;
        run(&mut later, 5),
        RunEnd::Wide {
            pivots: 1,
            row: 1,
            column: 0
        }
    );
    assert_eq!(rt; later.value(0), (0, LARGE));
    Ok(())
}

// Column 0 is at most three times column 1, and 2^126 times column 1 is at most 1. The second pivot would multiply 3 by
// 2^126 in column 1 of row 1, of the cap and of the objective row: of the places the first is answered.
#[test]
fn says_the_constraint_row_where_the_objective_row_passes_too(rt: HostRuntime) -> Result<(), Fail> {
    let mut tableau = started(rt.alloc(), 2, 3, &[0, LARGE, 1, -3, 1, 0], &[1, 0, 1])?;
    assert_eq!(rt;
        run(&mut tableau, 5),
        RunEnd::Wide {
            pivots: 1,
            row: 1,
            column: 1
        }
    );
    assert_eq!(rt; tableau.objective(1), 3);
    assert_eq!(rt; tableau.value(0), (0, 1));
    Ok(())
}
