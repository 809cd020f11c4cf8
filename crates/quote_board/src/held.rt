use scan_types::{Name, Offer};

/// What is kept of a live pin: the sheet as it was when the pin was made.
#[derive(Drop)]
pub(crate) struct Held {
    /// The pin's version.
    pub(crate) version: u64,
    /// The name of the match.
    pub(crate) match_name: Name,
    /// The offers of the sheet, in its order.
    pub(crate) offers: Vec<Offer>,
}
