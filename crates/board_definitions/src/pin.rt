use scan_types::Name;

/// A pin: the sheet of one match at one version, held for one caller until it is filed or released.
#[derive(Debug, Drop)]
pub struct Pin {
    /// The caller that holds it.
    pub caller: u8,
    /// The number of entries before its `Pinned` entry.
    pub version: u64,
    /// The name of the match.
    pub match_name: Name,
}

/// The answer to a request for a pin.
#[derive(Debug, Drop)]
pub enum Pick {
    /// The due match that has waited longest is pinned.
    Pinned(Pin),
    /// No match is due, and some feed has not ended.
    Idle,
    /// No match is due, and every feed has ended.
    Finished,
}
