//! The body of a feed, read into a board: each accepted line becomes an entry, in order, and then the end of the feed does.
//!
//! - `body`: reads the lines behind a header, up to the end of the feed or to what stops it before.
//! - `taking`: what one step adds to the board or to the refused lines.
#![tactic(auto)]

mod body;
mod taking;

pub use body::read_body;
pub use taking::{add_line, stop_of};
