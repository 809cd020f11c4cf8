use crate::accepted::Accepted;
use crate::cause::Refusal;
use crate::header::Header;

/// One answer of a feed reader: one for each line, and then one for how the feed ends. Nothing follows `BadHeader`, `End`, `Cut` and
/// `ReadFault`.
#[derive(Clone, Copy, Debug, PartialEq, Eq)]
pub enum Step {
    /// The header, which is line 1.
    Header(Header),
    /// Line 1 is no header.
    BadHeader(Refusal),
    /// An accepted line.
    Line(Accepted),
    /// A refused line. It changes nothing that stands.
    Refused(Refusal),
    /// A comment, or a line without fields.
    Skipped,
    /// The feed was read to its end.
    End,
    /// The feed has more lines or more bytes than are read.
    Cut,
    /// A read failed. A line that was not ended by then is left out.
    ReadFault,
}
