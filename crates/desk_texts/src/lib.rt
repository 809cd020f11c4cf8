//! The texts of the desk beside its report, and writing what is due. They take no memory.
//!
//! - `lines`: the error lines about feeds, each in a buffer of its own.
//! - `words`: the line of words that are no command, the usage and the version.
//! - `writing`: writes a text; the status of a failed write takes the place of the one that was due.
#![tactic(auto)]

mod causes;
mod lines;
mod words;
mod writing;

pub use desk_definitions::status;
pub use lines::{cannot_be_opened, cannot_be_read, have_one_name, is_no_header};
pub use words::{no_command, usage, version};
pub use writing::write_text;
