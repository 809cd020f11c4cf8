//! Texts on their way out: gathered, and handed on to a sink in large pieces. Nothing here takes memory.
//!
//! - `gathering`: a text that is gathered in a buffer, which goes to the sink each time it is full.
//! - `fields`: words, fields and numbers at the end of a line that is being made.
//!
//! What a call that writes came to is one record, `Wrote`, and one that gathers `Gathered` (`specs/Written`).
#![tactic(auto)]

mod fields;
mod gathering;

pub use fields::{push_field, push_number, push_word};
pub use gathering::{PIECE_BYTES, TextOut};
