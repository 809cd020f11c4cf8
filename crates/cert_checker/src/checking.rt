ghost use Rattle.std.specs.Prelude.{◌↔◌};
ghost use Rattle.finding_definitions.specs.Findings.{IsRightVerdict};
ghost use Rattle.cert_checker.specs.Answers.{Holds, IsAnswer, IsYes};
ghost use Rattle.cert_checker.specs.Arbitrage.{LeavesNoArbitrage};

use crate::answer::{Answer, Checked, Part};
use crate::limits::{part_above_limit, stake_above_limit};
use crate::means::{gaining_offer, need_of_unit, reach};
use crate::outcomes::{loss_of_parts, loss_of_stakes};
use crate::shape::{measure_fault, miscount, shape_fault};
use finding_definitions::Finding;
use scan_types::Sheet;

/// Whether the verdict is right for the sheet over all outcomes, or the first of the tests that it fails.
///
/// Stakes are settled once at each of the 98 stand-ins: O(98 * offers). A measure settles each offer once
/// at each entry: O(offers * entries + entries^2). Takes no memory.
pub fn check<'a>(sheet: &'a Sheet, finding: &'a Finding) -> Answer<'a>
    ensures yes { IsYes result ↔ IsRightVerdict sheet.now finding.now }
    ensures first_refusal { IsAnswer sheet.now finding.now result }
    ensures no_arbitrage { IsYes result → LeavesNoArbitrage sheet.now finding.now }
    ensures holds { Holds result sheet.now finding.now }
{
    try_in_order(sheet, finding)
}

// The tests in their order.
fn try_in_order<'a>(sheet: &'a Sheet, finding: &'a Finding) -> Answer<'a>
    ensures answer { IsAnswer sheet.now finding.now result }
    ensures holds { Holds result sheet.now finding.now }
{
    let offers = sheet.offers();
    match finding {
        Finding::Arb(stakes) => {
            let items = stakes.items();
            if let Some(k) = miscount(items.len(), offers.len()) {
                return Answer::NoShape(Part::Stakes, k as u32);
            }
            if let Some(i) = stake_above_limit(offers, items) {
                return Answer::NoOffer(i as u32, i128::from(items[i]));
            }
            if let Some((outcome, won)) = loss_of_stakes(offers, items) {
                return Answer::NoAt(outcome, won);
            }
        }
        Finding::Coherent(measure) => {
            let entries = measure.items();
            if let Some(k) = measure_fault(entries) {
                return Answer::NoShape(Part::Measure, k as u32);
            }
            if let Some((i, mean)) = gaining_offer(offers, entries) {
                return Answer::NoOffer(i as u32, mean);
            }
        }
        Finding::Thin(stakes, measure) => {
            let (items, entries) = (stakes.items(), measure.items());
            if let Some(k) = shape_fault(offers.len(), stakes) {
                return Answer::NoShape(Part::Stakes, k as u32);
            }
            if let Some(k) = measure_fault(entries) {
                return Answer::NoShape(Part::Measure, k as u32);
            }
            if let Some(i) = part_above_limit(offers, items, stakes.divisor()) {
                return Answer::NoOffer(i as u32, i128::from(items[i]));
            }
            if let Some((outcome, won)) = loss_of_parts(offers, items) {
                return Answer::NoAt(outcome, won);
            }
            let (reach, need) = (reach(offers, entries), need_of_unit(entries));
            if reach >= need {
                return Answer::NoBound { reach, need };
            }
        }
        _ => return Answer::NotAVerdict,
    }
    Answer::Yes(Checked { sheet, finding })
}
