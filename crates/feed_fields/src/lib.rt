//! One line of a feed by itself: its fields from left to right, each with its test, and the first fault with its column.
//!
//! - `line`: the header, and any other line; `forms`: which fields they have, in order.
//! - `readers`: one function a field, which reads the next field by its test.
//! - `values`, `words`: the tests of a field's bytes.
//! - `fields`: what is still to be read of a line, and its next field.
//!
//! A line is never copied: a field is a slice of it. Each call costs time in the bytes of its line, and takes no memory.
#![tactic(auto)]

mod fields;
mod forms;
mod line;
mod readers;
mod values;
mod words;

pub use line::{read_header, read_line};

#[cfg(test)]
mod tests;
