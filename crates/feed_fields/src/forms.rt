//! The forms of lines: their fields from left to right.
ghost use Rattle.std.specs.Prelude.{◌≡◌, IfOk};
ghost use Rattle.feed_fields.specs.Tests.{HasLimitInRange};
ghost use Rattle.feed_definitions.specs.Forms.{header_form, bet_line_form, selection_form, change_form, request_form};

use crate::fields::Fields;
use crate::readers::{
    next_action, next_feed, next_handicap, next_limit, next_market, next_name, next_odds,
    next_placed_name, next_rule, next_side, next_total, next_version,
};
use bet_words::{BetLine, LineKind, Market, line_kind};
use feed_definitions::{Action, Change, Fault, Header, Request};
use scan_types::Selection;

/// feed 1 BOOK RULE.
#[tactic(auto, unfolding(feed_definitions::specs::Forms::header_form))]
pub fn header_form<'a>(fields: Fields<'a>) -> Result<(Header, Fields<'a>), Fault>
    ensures { result ≡ header_form fields.entry }
{
    let (_, fields) = next_feed(fields)?;
    let (_, fields) = next_version(fields)?;
    let (book, fields) = next_name(fields)?;
    let (rule, fields) = next_rule(fields)?;
    Ok((Header { book, rule }, fields))
}

// The line of a bet, and nothing if its market has no lines.
#[tactic(auto, unfolding(feed_definitions::specs::Forms::bet_line_form))]
fn bet_line_form<'a>(fields: Fields<'a>, kind: LineKind) -> Result<(BetLine, Fields<'a>), Fault>
    ensures { result ≡ bet_line_form kind fields.entry }
{
    match kind {
        LineKind::NoLine => Ok((BetLine::NoLine, fields)),
        LineKind::Handicap => {
            let (line, fields) = next_handicap(fields)?;
            Ok((BetLine::Handicap(line), fields))
        }
        LineKind::Total => {
            let (line, fields) = next_total(fields)?;
            Ok((BetLine::Total(line), fields))
        }
    }
}

// LINE SIDE, or SIDE if the market has no lines.
#[tactic(auto, unfolding(feed_definitions::specs::Forms::selection_form))]
fn selection_form<'a>(fields: Fields<'a>, market: Market) -> Result<(Selection, Fields<'a>), Fault>
    ensures { result ≡ selection_form market fields.entry }
{
    let (line, fields) = bet_line_form(fields, line_kind(market))?;
    next_side(fields, market, line)
}

// ODDS LIMIT of a quote, and nothing of a withdrawal.
#[tactic(auto, unfolding(feed_definitions::specs::Forms::change_form))]
fn change_form<'a>(fields: Fields<'a>, action: Action) -> Result<(Change, Fields<'a>), Fault>
    ensures value { result ≡ change_form action fields.entry }
    ensures range { IfOk result (λ read. HasLimitInRange read.0) }
{
    match action {
        Action::Quotes => {
            let (odds, fields) = next_odds(fields)?;
            let (limit, fields) = next_limit(fields)?;
            Ok((Change::Quote(odds, limit), fields))
        }
        Action::Withdraws => Ok((Change::Withdraw, fields)),
    }
}

/// quote or withdraw, MATCH, the market, the selection at it, and the change.
#[tactic(auto, unfolding(feed_definitions::specs::Forms::request_form))]
pub fn request_form<'a>(fields: Fields<'a>) -> Result<(Request, Fields<'a>), Fault>
    ensures value { result ≡ request_form fields.entry }
    ensures range { IfOk result (λ read. HasLimitInRange read.0.change) }
{
    let (action, fields) = next_action(fields)?;
    let ((column, match_name), fields) = next_placed_name(fields)?;
    let (market, fields) = next_market(fields)?;
    let (selection, fields) = selection_form(fields, market)?;
    let (change, fields) = change_form(fields, action)?;
    let request = Request {
        column,
        match_name,
        selection,
        change,
    };
    Ok((request, fields))
}
