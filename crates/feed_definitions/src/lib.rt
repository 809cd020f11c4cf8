//! The feed text: what all the bytes of a feed mean, and the types of what is read.
//!
//! - `header`, `accepted`, `cause`, `step`: what a reader returns. `refusals`: the refused lines of a feed.
//! - `request`: a line by itself, before what stands in the feed is looked at.
//! - `laws`: what holds of the definitions themselves.
//!
//! The definitions stand in `specs`: `Lines` (a text as lines, and its limits of size), `Fields` (a line as fields, read from left to
//! right), `Forms` (the forms of lines, as tables), `Standing` (what the accepted lines leave standing), `Feed` (the steps of all the
//! bytes), `Answers` (what the answers so far leave) and `Laws` (the laws' statements).
#![tactic(auto)]

mod accepted;
mod cause;
mod header;
mod laws;
mod refusals;
mod request;
mod step;

pub use accepted::{Accepted, Change};
pub use cause::{Cause, Fault, Refusal};
pub use header::Header;
pub use laws::{
    a_bad_header_ends_the_feed, a_bad_header_stays, a_cut_stays, a_step_is_of_its_line,
    steps_before_stay, the_ending_follows_the_lines,
};
pub use refusals::Refusals;
pub use request::{Action, LineForm, Request};
pub use step::Step;
