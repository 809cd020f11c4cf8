//! The command `once`: feeds are read one after another on one thread, each due match is judged, and the report is written.
//!
//! - `command`: the command `once`, with what each of its statuses says.
//! - `run`: what it does, as one relation.
#![tactic(auto)]

mod board;
mod bodies;
mod books;
mod command;
mod finish;
mod headless;
mod opened;
mod reporting;
mod run;

pub use command::once;
pub use desk_definitions::{DeskEnd, FeedEnd};
