//! Definitions about rows of whole numbers without bound: the greatest common divisor of a row, its primitive, the
//! combination of two rows that a pivot makes, and where that passes 128 bits. There is no code here: the definitions
//! stand in specs/, and each function below has an empty body and a law of the definitions as its contract.
//!
//! - `divisor_law`: the divisor of a row is the greatest common divisor of its entries.
//! - `primitive_law`: a row is a positive multiple of its primitive, and rows of one direction have one primitive.
//! - `combination_law`: to combine primitives gives the primitive of the plain combination.
//! - `content_law`: two entries that the greatest common divisor of a combination divides.
//! - `passing_law`: a combination passes 128 bits nowhere, or first in one column.
#![tactic(auto)]

ghost use Rattle.row_definitions.specs.Laws.{DivisorDivides, DivisorIsGreatest, RowIsMultipleOfPrimitive, ZeroRowStays, PrimitiveKeepsDirection, MultipleKeepsSigns, PrimitiveStays, UnitEntryIsPrimitive, PrimitiveFits, PrimitiveOfMultiple, PrimitiveOfProportional, CombinedIsPlain, CombinedOfKeptForms, CombinedKeepsDirection, CombinedFits, CombinedIsZeroThere, ZeroThereStays, ZeroThereFits, ContentDividesTarget, ContentDividesPivot, PassesFirstOnce, PassesFirstOrNowhere};

/// The divisor of a row is the greatest common divisor of its entries.
pub fn divisor_law()
    ensures divides { DivisorDivides }
    ensures greatest { DivisorIsGreatest }
{}

/// A row is a positive multiple of its primitive, so they have the same signs; rows that are the same up to a positive
/// factor have one primitive, and a primitive row is its own.
pub fn primitive_law()
    ensures by_the_divisor { RowIsMultipleOfPrimitive }
    ensures zeros { ZeroRowStays }
    ensures direction { PrimitiveKeepsDirection }
    ensures signs { MultipleKeepsSigns }
    ensures stays { PrimitiveStays }
    ensures unit_entry { UnitEntryIsPrimitive }
    ensures fits { PrimitiveFits }
    ensures multiple { PrimitiveOfMultiple }
    ensures proportional { PrimitiveOfProportional }
{}

/// Combining primitives gives the primitive of the combination in which nothing is divided. It is 0 in the column that it
/// is made for, and a row that is 0 there already stays, up to a factor, and passes nowhere.
pub fn combination_law()
    ensures entries_divided_first { CombinedIsPlain }
    ensures kept_forms { CombinedOfKeptForms }
    ensures direction { CombinedKeepsDirection }
    ensures fits { CombinedFits }
    ensures zero_there { CombinedIsZeroThere }
    ensures zero_there_stays { ZeroThereStays }
    ensures zero_there_fits { ZeroThereFits }
{}

/// What divides each entry of the combination of primitive rows divides the target's entry in a column where the pivot is 0,
/// and the pivot's entry in a column where the target is 0. In a tableau in canonical form these are the column that is basic
/// in the target, and the one that leaves.
pub fn content_law()
    ensures target { ContentDividesTarget }
    ensures pivot { ContentDividesPivot }
{}

/// A combination passes 128 bits nowhere, or first in one column.
pub fn passing_law()
    ensures once { PassesFirstOnce }
    ensures or_nowhere { PassesFirstOrNowhere }
{}
