//! A line that was made.

/// One line behind the header.
#[derive(Clone, Copy)]
pub(crate) struct MadeLine {
    /// The number of its match.
    pub(crate) match_number: u32,
    /// The number of its selection.
    pub(crate) choice: u32,
    /// The odds that a quote has, in thousandths.
    pub(crate) odds: u32,
    /// The limit that a quote has, in minor units.
    pub(crate) limit: u32,
    /// Whether it quotes the selection; else it withdraws it.
    pub(crate) is_quote: bool,
}
