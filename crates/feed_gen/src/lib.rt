//! Feeds made from a number: large input that is the same everywhere.
//!
//! - `draws`: the numbers that are drawn, by a linear congruential step modulo 2^64.
//! - `making`: the lines, each from five draws and from what stands after the lines before it.
//! - `writing`: the text of a line and of a feed.
//!
//! Takes no memory: what stands is kept in 1,792 flags, and the text goes out in pieces.
#![tactic(auto)]

mod draws;
mod limits;
mod lines;
mod made_line;
mod making;
mod writing;

pub use writing::generate;

#[cfg(test)]
mod tests;
