ghost use Rattle.std.specs.Prelude.{◌≡◌, map, IfOk};
ghost use Rattle.settlement_definitions.specs.Classes.{classes_of};
ghost use Rattle.judging_definitions.specs.Columns.{leading_offers};
ghost use Rattle.judging_definitions.specs.JudgingPrograms.{homogeneous_program, limited_program};
ghost use Rattle.coherence_lp.specs.Asked.{asked_for};
ghost use Rattle.coherence_lp.specs.Starts.{HomogeneousStarts, LimitedStarts};

use crate::asked::{Needs, asked_at, needed_at};
use crate::columns::{columns_of, picked};
use crate::offer_list::OfferList;
use crate::rows::{push_class_rows, push_limit_rows, push_limits, push_unit_row, push_zeros};
use fraction_tableau::Program;
use scan_types::{Sheet, WantOfMemory};
use settle_classes::ClassList;
use std::alloc::Global;

/// The program without limits. `classes` are those of the sheet, and `leading` the offers that lead. Computes each gain once.
/// Takes memory for a number a place of the program, made once, and for one a pair of class and leading offer.
pub fn homogeneous(
    alloc: Global,
    sheet: &Sheet,
    classes: &ClassList,
    leading: &OfferList,
) -> Result<Program, WantOfMemory>
    requires classes { classes.now ≡ classes_of sheet.now }
    requires leading { leading.now ≡ map (λ offer. offer.0) (leading_offers sheet.now classes.now) }
    ensures { IfOk result (λ program. program ≡ homogeneous_program classes.now (map (λ offer. offer.1) (leading_offers sheet.now classes.now))) }
{
    let offers = picked(alloc, sheet.offers(), leading.numbers())?;
    let outcomes = classes.outcomes();
    let width = offers.len() + 1;
    let rows = outcomes.len() + 1;
    let mut coefs = Vec::with_capacity(alloc, rows * width)?;
    let columns = columns_of(alloc, &offers, outcomes)?;
    push_class_rows(
        &mut coefs,
        &needed_at(alloc, outcomes)?,
        &columns.gains,
        offers.len(),
    )?;
    push_unit_row(&mut coefs, width, 0)?;
    let mut right = Vec::with_capacity(alloc, rows)?;
    push_zeros(&mut right, outcomes.len())?;
    right.push(1)?;
    Ok(Program::of(width as u32, rows as u32, coefs, right))
}

/// The program with limits, over all offers. `classes` are those of the sheet. Computes each gain once. Takes memory for a
/// number a place of the program, made once, and for one a pair of class and offer.
pub fn limited(
    alloc: Global,
    sheet: &Sheet,
    classes: &ClassList,
    needs: Needs,
) -> Result<Program, WantOfMemory>
    requires { classes.now ≡ classes_of sheet.now }
    ensures { IfOk result (λ program. program ≡ limited_program classes.now sheet.now (asked_for needs sheet.now)) }
{
    let offers = sheet.offers();
    let outcomes = classes.outcomes();
    let width = offers.len() + 1;
    let rows = outcomes.len() + offers.len() + 1;
    let mut coefs = Vec::with_capacity(alloc, rows * width)?;
    let columns = columns_of(alloc, offers, outcomes)?;
    let asked = asked_at(alloc, needs, offers, outcomes)?;
    push_class_rows(&mut coefs, &asked, &columns.gains, offers.len())?;
    push_limit_rows(&mut coefs, offers.len())?;
    push_unit_row(&mut coefs, width, 0)?;
    let mut right = Vec::with_capacity(alloc, rows)?;
    push_zeros(&mut right, outcomes.len())?;
    push_limits(&mut right, offers, &columns.divisors)?;
    right.push(1)?;
    Ok(Program::of(width as u32, rows as u32, coefs, right))
}

/// A run may begin in the tableau of each of these programs, as built: its last row caps the level.
pub fn runs_may_begin()
    ensures homogeneous { HomogeneousStarts }
    ensures limited { LimitedStarts }
{}
