//! Where pivots can end wide: the objective row is never the first to pass 128 bits.
//!
//! The function is empty: its clauses are the law.
#![tactic(auto)]

ghost use Rattle.pivot_laws.specs.Laws.{ObjectiveNeverPassesFirstByAnyRule, ObjectiveNeverPassesFirst};

/// Pivots are made from the tableau of a program whose numbers an entry may have, each in a constraint row and a column
/// where the row's entry is positive, and by whatever rule. Where the next one passes 128 bits, the first place is in a
/// constraint row, never in the objective row. So it is where a run by Bland's rule of a capped program ends wide.
pub fn the_objective_row_never_passes_first()
    ensures by_any_rule { ObjectiveNeverPassesFirstByAnyRule }
    ensures in_a_run { ObjectiveNeverPassesFirst }
{}
