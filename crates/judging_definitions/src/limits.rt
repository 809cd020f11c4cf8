//! The largest sizes in the reading of stakes, and the step of coarse odds.

/// The largest common denominator of a direction, 2^120 - 1: far above any that a direction below 2^60 needs, and its
/// product with a remainder below 2^7 still fits 127 bits.
pub const MOST_COMMON_DENOMINATOR: u128 = 1_329_227_995_784_915_872_903_807_060_280_344_575;

/// Coarse odds are multiples of so many thousandths: gains in units of 0.05 keep the numbers of a run some five bits
/// shorter, pivot for pivot. The least and the greatest odds are such that rounding up stays in their range.
pub const COARSE_STEP: u32 = 50;
