//! What a run of the desk is: how each feed ended, what the opener and the sink were seen to do, the history, and what is written.
//!
//! - `feed_end`, `desk_end`: the types of what a run hands out.
//!
//! The definitions stand in `specs`: `Ends` (how a feed ended, by the bytes that were taken) and `Lines` (the entries of a feed's lines).
#![tactic(auto)]

mod desk_end;
mod feed_end;
pub mod status;

pub use desk_end::DeskEnd;
pub use feed_end::FeedEnd;
