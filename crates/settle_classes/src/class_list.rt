ghost use Rattle.std.specs.Prelude.{◌≡◌, IfOk};
ghost use Rattle.settlement_definitions.specs.Classes.{classes_of};

use crate::bets::bets;
use crate::row::{is_kept, settlement};
use crate::stand_ins::{STAND_INS, stand_in};
use scan_types::{Outcome, Sheet, WantOfMemory};
use std::alloc::Global;
use std::marker::Model;

/// The outcomes that a sheet settles differently, at most 98, in class order.
#[derive(Debug, Drop)]
pub struct ClassList {
    outcomes: Vec<Outcome>,
}

impl Model for ClassList {
    ghost use Rattle.std.specs.Prelude.{List};
    ghost use Rattle.scan_types.specs.declared.outcome.Outcome.{Outcome};

    ghost Value = { List Outcome };

    ghost view = { λ s. s.outcomes.items };
}

impl ClassList {
    /// The outcomes in class order.
    pub fn outcomes(&self) -> &[Outcome]
        ensures { result.now ≡ self.now }
    {
        self.outcomes.as_slice()
    }
}

/// The classes of a sheet: each stand-in, in class order, that differs in kind or in some offer's gain
/// from all kept before it.
///
/// Offers of one selection and rule gain alike at the same outcomes, whatever their odds. So only the
/// first offer of each selection and rule is settled: its gain is computed once at each of the 98
/// stand-ins and kept. Takes memory for as many offers as the sheet has and for at most 98 rows of one
/// gain per selection and rule. Compares each offer with at most the first of each selection and rule,
/// and at most 98 * 97 / 2 pairs of rows, each up to the first gain that differs.
pub fn classes(alloc: Global, sheet: &Sheet) -> Result<ClassList, WantOfMemory>
    ensures exact { IfOk result (λ list. list ≡ classes_of sheet.now) }
{
    let bets = bets(alloc, sheet.offers())?;
    let mut outcomes = Vec::new(alloc);
    let mut rows = Vec::new(alloc);
    for k in 0..STAND_INS {
        let outcome = stand_in(k);
        let row = settlement(alloc, &bets, outcome)?;
        if !is_kept(&rows, &row) {
            outcomes.push(outcome)?;
            rows.push(row)?;
        }
    }
    Ok(ClassList { outcomes })
}
