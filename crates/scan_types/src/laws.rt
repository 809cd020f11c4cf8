//! What holds of the words themselves. Each function is empty: its clause is the law.

ghost use Rattle.std.specs.Prelude.{◌≡◌};
ghost use Rattle.std.specs.Ordering.{nat_cmp};
ghost use Rattle.scan_types.specs.declared.selection.Selection.{Selection};
ghost use Rattle.scan_types.specs.Selections.{selection_number};
ghost use Rattle.scan_types.specs.Laws.{OneSelectionANumber};

use crate::selection::Selection;

/// A selection is known by its number.
pub fn a_number_has_one_selection()
    ensures { OneSelectionANumber }
{}

/// Selections are ordered by their numbers: the order that `<` and `cmp` of a `Selection` give is the order of selections.
pub fn selections_are_ordered_by_number()
    ensures { (a b : Selection) → ⟦<Selection as Ord>⟧.cmp a b ≡ nat_cmp (selection_number a) (selection_number b) }
{}
