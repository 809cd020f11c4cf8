ghost use Rattle.std.specs.Prelude.{◌↔◌};
ghost use Rattle.finding_definitions.specs.Best.{GainsMost, IsRightBest};
ghost use Rattle.best_checker.specs.BestAnswers.{IsBestAnswer, IsYes};

use crate::amounts::{bound, same, sure_gain};
use crate::answer::BestAnswer;
use crate::gains::loss_at_abandonment;
use cert_checker::Part;
use cert_checker::limits::part_above_limit;
use cert_checker::shape::{measure_fault, shape_fault};
use finding_definitions::{Measure, Parts};
use scan_types::Sheet;

/// Whether the stakes are the best that can be had on the sheet, shown by the measure, or the first of the tests that they fail.
///
/// If it says yes, no stakes within the limits that lose at no abandonment, fractions included, win at every final score more than
/// these do. The parts are settled at each of the 98 stand-ins: O(98 * offers). The measure settles each offer once at each entry:
/// O(offers * entries + entries^2). Takes no memory.
pub fn check_best(sheet: &Sheet, parts: &Parts, measure: &Measure) -> BestAnswer
    ensures yes { IsYes result ↔ IsRightBest sheet.now parts.now.divisor parts.now.parts measure.now }
    ensures first_refusal { IsBestAnswer sheet.now parts.now measure.now result }
    ensures no_more { IsYes result → GainsMost sheet.now parts.now.divisor parts.now.parts }
{
    try_in_order(sheet, parts, measure)
}

// The tests in their order.
fn try_in_order(sheet: &Sheet, parts: &Parts, measure: &Measure) -> BestAnswer
    ensures { IsBestAnswer sheet.now parts.now measure.now result }
{
    let offers = sheet.offers();
    let (items, entries) = (parts.items(), measure.items());
    if let Some(k) = shape_fault(offers.len(), parts) {
        return BestAnswer::NoShape(Part::Stakes, k as u32);
    }
    if let Some(k) = measure_fault(entries) {
        return BestAnswer::NoShape(Part::Measure, k as u32);
    }
    if let Some(i) = part_above_limit(offers, items, parts.divisor()) {
        return BestAnswer::NoOffer(i as u32, i128::from(items[i]));
    }
    if let Some((outcome, won)) = loss_at_abandonment(offers, items) {
        return BestAnswer::NoAt(outcome, won);
    }
    let (gain, bound) = (
        sure_gain(offers, items, parts.divisor()),
        bound(offers, entries),
    );
    if same(gain, bound) {
        return BestAnswer::Yes;
    }
    BestAnswer::NoTie { gain, bound }
}
