//! The board of a run, before a body is on it.
ghost use Rattle.std.specs.Prelude.{◌≡◌, ◌≤◌, length, map, IfOk, []};
ghost use Rattle.scan_types.specs.declared.limits.TheConstants.{MOST_FEEDS};
ghost use Rattle.quote_board.specs.Answers.{AreRulesOf};

use feed_definitions::Header;
use quote_board::Board;
use scan_types::{VoidRule, WantOfMemory};
use std::alloc::Global;
use verdict_maker::FindingLaw;

// The rules of the headers, in order.
fn rules_of(alloc: Global, headers: &[Header]) -> Result<Vec<VoidRule>, WantOfMemory>
    ensures { IfOk result (λ rules. rules.items ≡ map (λ header. header.rule) headers.now) }
{
    let mut rules = Vec::with_capacity(alloc, headers.len())?;
    for header in headers {
        rules.push(header.rule)?;
    }
    Ok(rules)
}

// A board for feeds with these headers, without entries.
pub(crate) fn begin_board(
    alloc: Global,
    headers: &[Header],
    pivots: u32,
) -> Result<Board<FindingLaw>, WantOfMemory>
    requires some { 1 ≤ length headers.now }
    requires few { length headers.now ≤ MOST_FEEDS }
    ensures history { IfOk result (λ board. board.history ≡ []) }
    ensures law { IfOk result (λ board. board.fixed.law.budget ≡ pivots) }
    ensures rules { IfOk result (λ board. AreRulesOf (map (λ header. header.rule) headers.now) board.fixed.rules) }
{
    let rules = rules_of(alloc, headers)?;
    Board::new(alloc, FindingLaw { budget: pivots }, &rules)
}
