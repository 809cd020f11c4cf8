ghost use Rattle.std.specs.Prelude.{◌<◌, ◌^◌, length};
ghost use Rattle.std.specs.List.{All};
ghost use Rattle.row_definitions.specs.Combination.{FitsEntry};
ghost use Rattle.fraction_rows.specs.Combinable.{Combinable};

use super::*;
use crate::plain::{plain_combine, plain_primitive};
use std::alloc::Global;
use std::process::Abort;
use std::test::Fail;

const LARGEST: i128 = i128::MAX;

// 2^126, of which twice is past an entry.
const LARGE: i128 = 0x4000_0000_0000_0000_0000_0000_0000_0000;

// 10^18 + 9, a prime.
const PRIME: i128 = 1_000_000_000_000_000_009;

#[test]
fn passes_in_the_first_column_where_a_product_does(rt: HostRuntime) {
    // 3 * 2^126 is above 2^127 - 1.
    let mut target = [1, 0x4000_0000_0000_0000_0000_0000_0000_0000];
    let pivot = [3, 0x4000_0000_0000_0000_0000_0000_0000_0000];
    assert_eq!(rt; fits_at(&target, &pivot, 0, 0), true);
    assert_eq!(rt; fits_at(&target, &pivot, 0, 1), false);
    assert_eq!(rt; combine(&mut target, &pivot, 0), Err(Passed { column: 1 }));
    assert_eq!(rt; target, [1, 0x4000_0000_0000_0000_0000_0000_0000_0000]);
}

#[test]
fn combines_and_divides(rt: HostRuntime) {
    // 2 * [2, 4, 6] - 1 * [4, 2, 0] = [0, 6, 12].
    let mut target = [2, 4, 6];
    assert_eq!(rt; combine(&mut target, &[4, 2, 0], 0), Ok(()));
    assert_eq!(rt; target, [0, 1, 2]);
}

#[test]
fn tests_before_it_combines(rt: HostRuntime) {
    // 3 * [5, 7] - 5 * [3, 2] = [0, 11].
    let mut target = [5, 7];
    let pivot = [3, 2];
    let target_bits = bit_length(&target);
    assert_eq!(rt;
        first_passing(&target, target_bits, &pivot, bit_length(&pivot), 0),
        None
    );
    combine_within(&mut target, target_bits, &pivot, bit_length(&pivot), 0, 0);
    assert_eq!(rt; target, [0, 1]);
}

#[test]
fn bit_length_is_that_of_the_greatest_size(rt: HostRuntime) {
    assert_eq!(rt; bit_length(&[]), 0);
    assert_eq!(rt; bit_length(&[0, 0]), 0);
    assert_eq!(rt; bit_length(&[0, -1]), 1);
    // 2 and 5 have the bits of 7 together, as many as 5.
    assert_eq!(rt; bit_length(&[2, -5, 0]), 3);
    assert_eq!(rt; bit_length(&[8, 7]), 4);
    assert_eq!(rt; bit_length(&[1, -0x7fff_ffff_ffff_ffff]), 63);
    assert_eq!(rt; bit_length(&[-0x8000_0000_0000_0000, 1]), 64);
    assert_eq!(rt; bit_length(&[LARGEST]), 127);
    assert_eq!(rt; bit_length(&[0, i128::MIN]), 128);
}

#[test]
fn primitive_keeps_signs(rt: HostRuntime) {
    let mut row = [-6, 0, 4, -10];
    primitive(&mut row);
    assert_eq!(rt; row, [-3, 0, 2, -5]);
}

#[test]
fn primitive_divides_by_odd_and_even_divisors(rt: HostRuntime) {
    // 12 times 2^100, -(2^63 - 1), 0 and 7.
    let mut row = [
        0xc0_0000_0000_0000_0000_0000_0000,
        -0x5_ffff_ffff_ffff_fff4,
        0,
        84,
    ];
    primitive(&mut row);
    assert_eq!(rt;
        row,
        [
            0x10_0000_0000_0000_0000_0000_0000,
            -0x7fff_ffff_ffff_ffff,
            0,
            7
        ]
    );
    // 2^125 times 2 and -1.
    let mut twos = [
        0x4000_0000_0000_0000_0000_0000_0000_0000,
        -0x2000_0000_0000_0000_0000_0000_0000_0000,
    ];
    primitive(&mut twos);
    assert_eq!(rt; twos, [2, -1]);
    // 10^18 + 9, a prime, times 10^18 + 9, -1 and -170141183460469228.
    let mut odd = [
        1_000_000_000_000_000_018_000_000_000_000_000_081,
        -1_000_000_000_000_000_009,
        -170_141_183_460_469_229_531_270_651_144_223_052,
    ];
    primitive(&mut odd);
    assert_eq!(rt;
        odd,
        [1_000_000_000_000_000_009, -1, -170_141_183_460_469_228]
    );
}

#[test]
fn primitive_divides_where_a_late_entry_lowers_the_divisor(rt: HostRuntime) {
    // 12 divides all but the last entry, and 2 that too.
    let mut row = [12, 24, -36, 0, 60, 10];
    primitive(&mut row);
    assert_eq!(rt; row, [6, 12, -18, 0, 30, 5]);
}

#[test]
fn primitive_leaves_a_row_where_a_late_entry_lowers_the_divisor_to_one(rt: HostRuntime) {
    // 6 divides all but the last entry, and no number above 1 divides 6 and 7.
    let mut row = [6, 12, 18, 7];
    primitive(&mut row);
    assert_eq!(rt; row, [6, 12, 18, 7]);
}

#[test]
fn zeros_stay(rt: HostRuntime) {
    let mut row = [0, 0];
    primitive(&mut row);
    assert_eq!(rt; row, [0, 0]);
}

#[test]
fn extremes(rt: HostRuntime) {
    let mut row = [LARGEST, -LARGEST, 0];
    primitive(&mut row);
    assert_eq!(rt; row, [1, -1, 0]);
    // 1 * -LARGEST - 1 * 1 is the least number, which an entry may not be.
    let mut target = [1, -LARGEST];
    assert_eq!(rt; combine(&mut target, &[1, 1], 0), Err(Passed { column: 1 }));
    // 1 * LARGEST - -1 * 0 is the largest.
    let mut fitting = [-1, LARGEST];
    assert_eq!(rt; combine(&mut fitting, &[1, 0], 0), Ok(()));
    assert_eq!(rt; fitting, [0, 1]);
}

fn compare_primitive(rt: &impl Abort, alloc: Global, row: &[i128]) -> Result<(), Fail>
    requires { All FitsEntry row.now }
{
    let mut divided = row.to_vec(alloc)?;
    let mut plain = row.to_vec(alloc)?;
    primitive(&mut divided);
    plain_primitive(&mut plain);
    assert_eq!(rt; divided.as_slice(), plain.as_slice());
    Ok(())
}

#[test]
fn primitive_is_the_plain_one(rt: HostRuntime) -> Result<(), Fail> {
    let alloc = rt.alloc();
    compare_primitive(&rt, alloc, &[])?;
    compare_primitive(&rt, alloc, &[-7])?;
    compare_primitive(&rt, alloc, &[0, 0, 0])?;
    compare_primitive(&rt, alloc, &[0, 0, -9, 0, 6])?;
    compare_primitive(&rt, alloc, &[4, -6, 10])?;
    compare_primitive(&rt, alloc, &[15, -21, 9])?;
    compare_primitive(&rt, alloc, &[5, 3, 10])?;
    compare_primitive(&rt, alloc, &[-1, 6, 12])?;
    compare_primitive(&rt, alloc, &[6, 6, 12, 0, -18, 4])?;
    compare_primitive(&rt, alloc, &[60, 60, 30, 12, 5])?;
    compare_primitive(&rt, alloc, &[48, 48, -24, 36, 30])?;
    compare_primitive(&rt, alloc, &[LARGE, -LARGE, 0])?;
    compare_primitive(&rt, alloc, &[LARGE, LARGE, 12])?;
    compare_primitive(&rt, alloc, &[LARGE, LARGE, LARGEST])?;
    compare_primitive(&rt, alloc, &[LARGEST, LARGEST, -LARGEST])?;
    compare_primitive(&rt, alloc, &[PRIME * PRIME, -PRIME, 3 * PRIME])?;
    compare_primitive(&rt, alloc, &[PRIME * PRIME, PRIME * PRIME, -PRIME])
}

fn compare_combine(
    rt: &impl Abort,
    alloc: Global,
    target: &[i128],
    pivot: &[i128],
    at: usize,
) -> Result<(), Fail>
    requires combinable { Combinable target.now pivot.now at }
    requires columns { length target.now < 2 ^ 32 }
{
    let mut combined = target.to_vec(alloc)?;
    let mut plain = target.to_vec(alloc)?;
    let said = combine(&mut combined, pivot, at);
    assert_eq!(rt; said, plain_combine(&mut plain, pivot, at));
    assert_eq!(rt; combined.as_slice(), plain.as_slice());
    Ok(())
}

#[test]
fn combine_is_the_plain_one(rt: HostRuntime) -> Result<(), Fail> {
    let alloc = rt.alloc();
    compare_combine(&rt, alloc, &[2, 4, 6], &[4, 2, 0], 0)?;
    compare_combine(&rt, alloc, &[-2, 4, 6], &[4, 2, 0], 0)?;
    compare_combine(&rt, alloc, &[5, 0, -7], &[3, 1, 2], 1)?;
    compare_combine(&rt, alloc, &[4, 6], &[2, 3], 0)?;
    compare_combine(&rt, alloc, &[0, 0, 9], &[1, 1, 1], 2)?;
    // Wide, and within 128 bits.
    compare_combine(&rt, alloc, &[LARGE, LARGE, 3], &[LARGE, 1, 0], 0)?;
    compare_combine(&rt, alloc, &[PRIME * PRIME, 0, PRIME], &[PRIME, 1, 0], 0)?;
    // Factors of 2 bits and rows of 124 and of 125, which do not pass: 5 * (2^124 - 1) and 5 * (2^124 + 1).
    compare_combine(&rt, alloc, &[-2, LARGE / 4 - 1], &[3, LARGE / 4 - 1], 0)?;
    compare_combine(&rt, alloc, &[-2, LARGE / 4 + 1], &[3, LARGE / 4 + 1], 0)?;
    compare_combine(&rt, alloc, &[0, LARGEST], &[1, 1], 1)
}

#[test]
fn combine_passes_as_the_plain_one(rt: HostRuntime) -> Result<(), Fail> {
    let alloc = rt.alloc();
    // In the first column a product of the target, in the last one of the pivot.
    compare_combine(&rt, alloc, &[LARGE, 0, 1], &[1, 1, 3], 2)?;
    compare_combine(&rt, alloc, &[3, 1, 0], &[1, 0, LARGE], 0)?;
    // In the last column the difference alone, at either end.
    compare_combine(&rt, alloc, &[1, 0, -LARGEST], &[1, 0, 1], 0)?;
    compare_combine(&rt, alloc, &[1, 0, -LARGEST], &[1, 0, LARGEST], 0)?;
    compare_combine(&rt, alloc, &[-1, 0, LARGEST], &[1, 0, 1], 0)?;
    // Factors of 2 bits and rows of 125: 5 * (2^125 - 1) in the last column, though no product passes.
    compare_combine(&rt, alloc, &[-2, LARGE / 2 - 1], &[3, LARGE / 2 - 1], 0)?;
    // A product is the least number, which an entry may not be.
    compare_combine(&rt, alloc, &[1, -LARGE, 0], &[2, 0, 0], 0)
}
