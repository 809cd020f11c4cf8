use crate::{Answer, Part, check};
use finding_definitions::{Finding, Measure, Parts, Stage, Stakes, WideAt};
use scan_types::limits::{MOST_PART, MOST_SCORE};
use scan_types::{HandicapLine, Odds, Offer, Outcome, Selection, Sheet, TotalLine, VoidRule};
use std::alloc::Global;

/// An answer that can be compared.
#[derive(Clone, Copy, Debug, PartialEq)]
enum Said {
    Yes,
    NotAVerdict,
    NoShape(Part, u32),
    NoOffer(u32, i128),
    NoAt(Outcome, i128),
    NoBound(i128, i128),
    /// No such sheet can be made, or no memory is left.
    NotAsked,
}

const DRAW: Outcome = Outcome::Full(0, 0);

const AWAY: Outcome = Outcome::Full(0, 1);

const HOME: Outcome = Outcome::Full(1, 0);

const WEIGHTS: [(Outcome, u64); 3] = [(DRAW, 63), (AWAY, 56), (HOME, 120)];

fn answer_of(sheet: &Sheet, finding: &Finding) -> Said {
    match check(sheet, finding) {
        Answer::Yes(_) => Said::Yes,
        Answer::NotAVerdict => Said::NotAVerdict,
        Answer::NoShape(part, place) => Said::NoShape(part, place),
        Answer::NoOffer(place, number) => Said::NoOffer(place, number),
        Answer::NoAt(outcome, won) => Said::NoAt(outcome, won),
        Answer::NoBound { reach, need } => Said::NoBound(reach, need),
    }
}

fn sheet_of(alloc: Global, offers: &[Option<Offer>]) -> Option<Sheet> {
    let mut sheet = Sheet::new(alloc);
    for offer in offers {
        let offer = (*offer)?;
        if !sheet.fits(&offer) {
            return None;
        }
        sheet.push(offer).ok()?;
    }
    Some(sheet)
}

fn asked(alloc: Global, offers: &[Option<Offer>], finding: Option<Finding>) -> Said {
    let Some(finding) = finding else {
        return Said::NotAsked;
    };
    match sheet_of(alloc, offers) {
        Some(sheet) => answer_of(&sheet, &finding),
        None => Said::NotAsked,
    }
}

fn arb(alloc: Global, stakes: &[u32]) -> Option<Finding> {
    let stakes = stakes.to_vec(alloc).ok()?;
    Some(Finding::Arb(Stakes::of(stakes)))
}

fn coherent(alloc: Global, entries: &[(Outcome, u64)]) -> Option<Finding> {
    let entries = entries.to_vec(alloc).ok()?;
    Some(Finding::Coherent(Measure::of(entries)))
}

fn thin(alloc: Global, divisor: u64, parts: &[u64], entries: &[(Outcome, u64)]) -> Option<Finding> {
    let parts = parts.to_vec(alloc).ok()?;
    let entries = entries.to_vec(alloc).ok()?;
    Some(Finding::Thin(Parts::of(divisor, parts), Measure::of(entries)))
}

fn offer(feed: u8, selection: Selection, odds: u32, limit: u32, rule: VoidRule) -> Option<Offer> {
    Offer::new(feed, selection, Odds::new(odds)?, limit, rule)
}

// Home and away of one book and the draw of another, which give all stakes back.
fn results(odds: (u32, u32, u32), limit: u32) -> [Option<Offer>; 3] {
    [
        offer(0, Selection::Home, odds.0, limit, VoidRule::Void),
        offer(0, Selection::Away, odds.1, limit, VoidRule::Void),
        offer(1, Selection::Draw, odds.2, limit, VoidRule::Void),
    ]
}

// Over 2.5 at 2.100 of a book that gives all stakes back.
fn over(feed: u8, limit: u32) -> Option<Offer> {
    let line = TotalLine::new(10)?;
    offer(feed, Selection::Over(line), 2_100, limit, VoidRule::Void)
}

// Under 2.5 at 2.100.
fn under(feed: u8, limit: u32, rule: VoidRule) -> Option<Offer> {
    let line = TotalLine::new(10)?;
    offer(feed, Selection::Under(line), 2_100, limit, rule)
}

// Home +0.25 at 1.001, which gains 1/2000 of its stake at a draw.
fn home(limit: u32) -> Option<Offer> {
    let line = HandicapLine::new(1)?;
    let selection = Selection::HandicapHome(line);
    offer(0, selection, 1_001, limit, VoidRule::Void)
}

// Expected values are worked out by hand from odds, stakes and rounding.
#[test]
fn stakes_at_each_answer(rt: HostRuntime) {
    let a = rt.alloc();
    let three = results((2_100, 4_500, 4_000), 100_000);
    assert_eq!(rt;
        [
            asked(a, &three, arb(a, &[500, 234, 263])),
            asked(a, &three, arb(a, &[100_000, 46_666, 52_500])),
            asked(a, &three, arb(a, &[100_001, 0, 0])),
            asked(a, &three, arb(a, &[500, 234, 200])),
            asked(a, &three, arb(a, &[1, 1])),
        ],
        [
            Said::Yes,
            Said::Yes,
            Said::NoOffer(0, 100_001),
            Said::NoAt(DRAW, -134),
            Said::NoShape(Part::Stakes, 2),
        ]
    );
}

// A book that settles an abandoned match on its score, two payments of 10.5 that are each rounded down,
// and a finding that leaves the question open.
#[test]
fn stakes_on_totals(rt: HostRuntime) {
    let a = rt.alloc();
    let mixed = [over(0, 10_000), under(1, 10_000, VoidRule::Score)];
    let two = [over(0, 100), over(1, 100), under(2, 100, VoidRule::Void)];
    let wide = Finding::Wide {
        stage: Stage::First,
        pivots: 0,
        at: WideAt::Entry { row: 0, column: 0 },
    };
    assert_eq!(rt;
        [
            asked(a, &mixed, arb(a, &[10_000, 10_000])),
            asked(a, &two, arb(a, &[5, 5, 10])),
            asked(a, &mixed, Some(wide)),
        ],
        [
            Said::NoAt(Outcome::Abandoned(0, 3), -10_000),
            Said::NoAt(Outcome::Full(0, 3), 0),
            Said::NotAVerdict,
        ]
    );
}

// The reciprocals of odds of 3.000 sum to one, so each mean is exactly 0.
#[test]
fn forms_of_a_measure(rt: HostRuntime) {
    let a = rt.alloc();
    let even = results((3_000, 3_000, 3_000), 1_000);
    let w = MOST_PART;
    let far = Outcome::Full(MOST_SCORE, 0);
    let farther = Outcome::Full(MOST_SCORE + 1, 0);
    assert_eq!(rt;
        [
            asked(a, &even, coherent(a, &[(DRAW, w), (AWAY, w), (far, w)])),
            asked(a, &even, coherent(a, &[(DRAW, 1), (AWAY, 1), (farther, 1)])),
            asked(
                a,
                &even,
                coherent(a, &[(DRAW, 1), (AWAY, w + 1), (HOME, 0)])
            ),
            asked(a, &even, coherent(a, &[(DRAW, 0), (AWAY, 1), (HOME, 1)])),
            asked(a, &even, coherent(a, &[(DRAW, 1), (AWAY, 1), (DRAW, 1)])),
            asked(a, &even, coherent(a, &[(Outcome::Abandoned(0, 0), 1)])),
        ],
        [
            Said::Yes,
            Said::NoShape(Part::Measure, 2),
            Said::NoShape(Part::Measure, 1),
            Said::NoShape(Part::Measure, 0),
            Said::NoShape(Part::Measure, 2),
            Said::NoShape(Part::Measure, 1),
        ]
    );
}

// A mean gain of 1, and one of 26,000.
#[test]
fn means_above_nothing(rt: HostRuntime) {
    let a = rt.alloc();
    let three = results((2_100, 4_500, 4_000), 100_000);
    assert_eq!(rt;
        [
            asked(a, &[home(1)], coherent(a, &[(DRAW, 1)])),
            asked(a, &three, coherent(a, &WEIGHTS)),
        ],
        [Said::NoOffer(0, 1), Said::NoOffer(0, 26_000)]
    );
}

// The entries of a draw, an away win and a home win, and so many abandonments besides.
fn with_abandonments(alloc: Global, count: u64) -> Option<Finding> {
    let mut entries = [(DRAW, 1), (AWAY, 1), (HOME, 1)].to_vec(alloc).ok()?;
    for goals in 0..count {
        entries.push((Outcome::Abandoned(goals, 0), 1)).ok()?;
    }
    Some(Finding::Coherent(Measure::of(entries)))
}

#[test]
fn measures_of_most_entries(rt: HostRuntime) {
    let a = rt.alloc();
    let even = results((3_000, 3_000, 3_000), 1_000);
    assert_eq!(rt;
        [
            asked(a, &even, with_abandonments(a, 1_021)),
            asked(a, &even, with_abandonments(a, 1_022)),
        ],
        [Said::Yes, Said::NoShape(Part::Measure, 1_024)]
    );
}

#[test]
fn parts_at_each_answer(rt: HostRuntime) {
    let a = rt.alloc();
    let w = MOST_PART;
    let ones = results((2_100, 4_500, 4_000), 1);
    assert_eq!(rt;
        [
            asked(a, &ones, thin(a, 120, &[120, 56, 63], &WEIGHTS)),
            asked(a, &ones, thin(a, w, &[120, 56, 63], &WEIGHTS)),
            asked(a, &ones, thin(a, 1, &[120, 56, 63], &WEIGHTS)),
            asked(a, &ones, thin(a, 0, &[120, 56, 63], &WEIGHTS)),
            asked(a, &ones, thin(a, w + 1, &[120, 56, 63], &WEIGHTS)),
            asked(a, &ones, thin(a, w, &[0, w + 1, 0], &WEIGHTS)),
            asked(a, &ones, thin(a, w, &[w, 0, 0], &WEIGHTS)),
        ],
        [
            Said::Yes,
            Said::Yes,
            Said::NoOffer(0, 120),
            Said::NoShape(Part::Stakes, 3),
            Said::NoShape(Part::Stakes, 3),
            Said::NoShape(Part::Stakes, 1),
            Said::NoAt(DRAW, -2_305_843_009_213_693_950_000),
        ]
    );
}

// Equal parts of over and under 2.5 gain 200 at every final score. Under weights of 1 on a draw and on
// 2 to 1, stakes can reach 3 * 1133 + 200 * 3, one below the 4000 that a unit needs, or just
// 3 * 1200 + 200 * 2.
#[test]
fn bounds_at_each_answer(rt: HostRuntime) {
    let a = rt.alloc();
    let many = results((2_100, 4_500, 4_000), 100_000);
    let below = [home(1_133), over(0, 1), under(0, 2, VoidRule::Void)];
    let equal = [home(1_200), over(0, 1), under(0, 1, VoidRule::Void)];
    let weights = [(DRAW, 1), (Outcome::Full(2, 1), 1)];
    assert_eq!(rt;
        [
            asked(a, &many, thin(a, 120, &[120, 56, 63], &WEIGHTS)),
            asked(a, &below, thin(a, 1, &[0, 1, 1], &weights)),
            asked(a, &equal, thin(a, 1, &[0, 1, 1], &weights)),
        ],
        [
            Said::NoBound(7_800_000_000, 478_000),
            Said::Yes,
            Said::NoBound(4_000, 4_000),
        ]
    );
}
