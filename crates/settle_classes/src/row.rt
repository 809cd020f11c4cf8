ghost use Rattle.std.specs.List.{list_any};
ghost use Rattle.std.specs.Prelude.{◌≡◌, IfOk, map};
ghost use Rattle.settle_classes.specs.Rows.{parts_of, same_settlement};
ghost use Rattle.settlement_definitions.specs.StandIns.{is_final};
ghost use Rattle.settlement_definitions.specs.Gain.{gain};
ghost use Rattle.settlement_definitions.specs.Scores.{HasScoresInRange};

use scan_types::{Offer, Outcome, WantOfMemory};
use std::alloc::Global;
use void_rules::gain;

/// How an outcome settles a sheet: its kind, and the gain of each offer.
#[derive(Debug, Drop, PartialEq)]
pub struct Row {
    /// Whether the match was completed.
    pub is_final: bool,
    /// The gain of each offer, in 1/2000 of its stake.
    pub gains: Vec<i64>,
}

/// Whether the match was completed.
fn is_final(outcome: Outcome) -> bool
    ensures { result ≡ is_final outcome }
{
    match outcome {
        Outcome::Full(_, _) => true,
        Outcome::Abandoned(_, _) => false,
    }
}

/// How the outcome settles the offers. Computes each gain once.
pub fn settlement(alloc: Global, offers: &[Offer], outcome: Outcome) -> Result<Row, WantOfMemory>
    requires { HasScoresInRange outcome }
    ensures kind { IfOk result (λ row. row.is_final ≡ is_final outcome) }
    ensures gains { IfOk result (λ row. row.gains.items ≡ map (λ offer. gain offer outcome) offers.now) }
{
    let gains = offers
        .iter()
        .map(|offer| gain(offer, outcome))
        .collect(alloc)?;
    Ok(Row {
        is_final: is_final(outcome),
        gains,
    })
}

/// Whether one of the rows settles as this one does: compares each up to the first gain that differs.
pub fn is_kept(rows: &[Row], row: &Row) -> bool
    ensures { result ≡ list_any (λ y. same_settlement (parts_of y) (parts_of row.now)) rows.now }
{
    rows.contains(row)
}
