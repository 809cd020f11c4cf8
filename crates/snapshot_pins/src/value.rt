use scan_types::Offer;

/// What a cell holds from a version on, until its next value.
#[derive(Clone, Copy, Debug)]
pub(crate) struct CellValue {
    /// The version from which on it holds.
    pub(crate) version: u64,
    /// The offer, and none once it is removed.
    pub(crate) offer: Option<Offer>,
}
