use crate::accepted::Change;
use crate::cause::Fault;
use scan_types::{Name, Selection};

/// The first word of a line: what it does.
#[derive(Clone, Copy, Debug, PartialEq, Eq)]
pub enum Action {
    /// `quote`: it offers odds and a stake limit.
    Quotes,
    /// `withdraw`: it takes an offer away.
    Withdraws,
}

/// What a well-formed line asks for. Whether it is accepted depends on what stands in the feed.
#[derive(Clone, Copy, Debug, PartialEq, Eq)]
pub struct Request {
    /// The column of the match name, counted in bytes from 1.
    pub column: u32,
    /// The match that it names.
    pub match_name: Name,
    /// The bet on the match that it names.
    pub selection: Selection,
    /// What it does to the offer of the book on that bet.
    pub change: Change,
}

/// A line that is not the header, by itself.
#[derive(Clone, Copy, Debug, PartialEq, Eq)]
pub enum LineForm {
    /// A comment, or no field at all.
    Skipped,
    /// The line is malformed.
    Wrong(Fault),
    /// The line is well formed.
    Asks(Request),
}
