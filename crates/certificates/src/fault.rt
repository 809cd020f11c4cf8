/// Why a text was not read as a finding.
#[derive(Clone, Copy, Debug, PartialEq, Eq)]
pub enum FindingFault {
    /// The text is no finding's text within the limits for reading. So many bytes of it, and no more, begin one: from 0 to
    /// the length of the text.
    BadAt(u32),
    /// No memory is left.
    WantOfMemory,
}
