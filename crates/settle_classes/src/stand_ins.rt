ghost use Rattle.std.specs.Prelude.{◌≡◌, ◌<◌, ◌≤◌, slice_get};
ghost use Rattle.settlement_definitions.specs.StandIns.{is_final, lead_step, stand_score, stand_scores, stand_ins};
ghost use Rattle.settlement_definitions.specs.StandIns.{stand_for as stand_for_outcome};
ghost use Rattle.scan_types.specs.declared.offer.Offer.{Offer};
ghost use Rattle.settlement_definitions.specs.Gain.{gain};
ghost use Rattle.settlement_definitions.specs.Scores.{HasScoresInRange};

use scan_types::Outcome;
use settlement_laws::laws::high_scores_go_by_lead;

/// How many outcomes stand for all: 49 scores, each as a final score and at abandonment.
pub const STAND_INS: u8 = 98;

/// The scores that stand for all: those of up to seven goals by total and home goals, then for each
/// lead from -6 to 6 the one of eight goals, or of nine where the lead is odd.
static SCORES: [(u64, u64); 49] = [
    (0, 0),
    (0, 1),
    (1, 0),
    (0, 2),
    (1, 1),
    (2, 0),
    (0, 3),
    (1, 2),
    (2, 1),
    (3, 0),
    (0, 4),
    (1, 3),
    (2, 2),
    (3, 1),
    (4, 0),
    (0, 5),
    (1, 4),
    (2, 3),
    (3, 2),
    (4, 1),
    (5, 0),
    (0, 6),
    (1, 5),
    (2, 4),
    (3, 3),
    (4, 2),
    (5, 1),
    (6, 0),
    (0, 7),
    (1, 6),
    (2, 5),
    (3, 4),
    (4, 3),
    (5, 2),
    (6, 1),
    (7, 0),
    (1, 7),
    (2, 7),
    (2, 6),
    (3, 6),
    (3, 5),
    (4, 5),
    (4, 4),
    (5, 4),
    (5, 3),
    (6, 3),
    (6, 2),
    (7, 2),
    (7, 1),
];

/// The score of number `k`.
fn score_at(k: usize) -> (u64, u64)
    requires { k < 49 }
    ensures numbered { slice_get stand_scores k ≡ Some result }
    ensures small { (result.0 ≤ 7) × (result.1 ≤ 7) }
{
    SCORES[k]
}

/// The stand-in of number `k`, below 98, in class order.
pub fn stand_in(k: u8) -> Outcome
    requires { k < STAND_INS }
    ensures numbered { slice_get stand_ins k ≡ Some result }
    ensures in_range { HasScoresInRange result }
{
    if k < 49 {
        let (h, a) = score_at(usize::from(k));
        Outcome::Full(h, a)
    } else {
        let (h, a) = score_at(usize::from(k - 49));
        Outcome::Abandoned(h, a)
    }
}

/// The score that stands for a score: itself up to seven goals, and beyond the one with its lead,
/// where a lead beyond six goals counts as six.
fn stand_score(h: u64, a: u64) -> (u64, u64)
    ensures { result ≡ stand_score h a }
{
    if h <= 7 && a <= 7 - h {
        return (h, a);
    }
    prove!({
        high_scores_go_by_lead();
        true
    });
    score_at(36 + lead_step(h, a))
}

/// Six more than the home side's lead, which counts as -6 to 6.
fn lead_step(h: u64, a: u64) -> usize
    ensures { result ≡ lead_step h a }
{
    if h > a {
        6 + (h - a).min(6) as usize
    } else {
        6 - (a - h).min(6) as usize
    }
}

/// The stand-in for an outcome: of the same kind, and with the same gain on every offer. Takes any
/// score.
pub fn stand_for(outcome: Outcome) -> Outcome
    ensures exact { result ≡ stand_for_outcome outcome }
    ensures kind { is_final result ≡ is_final outcome }
    ensures gains { (offer : Offer) → gain offer result ≡ gain offer outcome }
{
    match outcome {
        Outcome::Full(h, a) => {
            let (home, away) = stand_score(h, a);
            Outcome::Full(home, away)
        }
        Outcome::Abandoned(h, a) => {
            let (home, away) = stand_score(h, a);
            Outcome::Abandoned(home, away)
        }
    }
}
